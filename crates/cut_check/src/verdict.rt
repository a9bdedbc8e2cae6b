//! The verdicts of the checker.

/// The verdict on a cut with its flow, or on a path of pinned imports: `Yes`, or a cause against it. Modules are given by their numbers.
/// If several causes hold, the verdict is the one that is listed first here.
#[derive(Clone, Copy, Debug)]
pub enum Verdict {
    /// The reported imports are a cut of the reported weight, none of them is pinned, and the flow has this weight as its value.
    /// Or the reported modules are a path of pinned imports from the first of the two modules to the second.
    Yes,
    /// A line isn't an import of the network, or isn't after its predecessor. The first such line is given by its two modules.
    /// Lines of reported imports are checked before lines of flow.
    NoSuchImport { from: u32, to: u32 },
    /// A path from the first of the two modules to the second avoids the reported imports. Or the reported path of pinned imports doesn't
    /// begin with the first module or doesn't end with the second.
    StillChain,
    /// A reported import is pinned, a reported weight isn't that of its import, or the sum of the weights isn't the reported total.
    WrongWeight,
    /// The flow on an unpinned import exceeds the import's weight. The first such import is given by its two modules.
    OverWeight { from: u32, to: u32 },
    /// A module other than the two given ones has an inflow that differs from its outflow. The one with the smallest number is given.
    NotKept { module: u32 },
    /// The outflow of the first of the two modules minus its inflow isn't the reported total.
    WrongValue,
    /// Between two consecutive modules of the reported path there is no pinned import. The first two such modules are given.
    NotPinned { from: u32, to: u32 },
}
