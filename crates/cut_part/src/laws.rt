//! Laws of networks with equal flows: after capacity reduction, reversal and restriction to paths between two modules. Each is proved as
//! the contract of a function with an empty body.
ghost use Rattle.std.specs.Prelude.{ℕ, ◌≡◌, ◌≢◌, ◌<◌, ◌≤◌, ◌↔◌, ◌&&◌, Bool, true, false, List, length, map, slice_index, Contains};
ghost use Rattle.cut_net.specs.declared.priced.Priced.{Priced};
ghost use Rattle.cut_net.specs.Network.{name_of, Network};
ghost use Rattle.cut_net.specs.WellFormed.{AreBetween, IsAcyclic};
ghost use Rattle.cut_net.specs.Cuts.{Any, AreReported, IsSetOf, Chain, IsFlow, Reached};
ghost use Rattle.cut_net.specs.Lines.{flow_by, IsAnswer, IsAscending, IsCheapestAnswer};
ghost use Rattle.cut_net.specs.AnswerClaim.{AnswerClaim};
ghost use Rattle.residual_graph.specs.Graphs.{is_flagged};
ghost use Rattle.cut_part.specs.Apart.{flow_lines, AreApart};
ghost use Rattle.cut_part.specs.Subnetworks.{internal_flow, are_ends_in, part_of, IsBetween};
ghost use Rattle.cut_part.specs.Marks.{flow_in_net, reported_in_net, claim_in_net, IsSubnetwork};
ghost use Rattle.cut_part.specs.CapacityReduction.{import_in, AreReductions, IsUnreachable, DependsOnEndsOnly, IsMaxFlow, IsReducedAt, IsReduced};
ghost use Rattle.cut_part.specs.Renumbering.{flow_renumbered, renumbered, IsRenumbered};
ghost use Rattle.cut_part.specs.Reversal.{reversed_flow, reversed, reversed_net};

/// Reducing the weight of one import loses no flow in two cases: the imported module isn't the sink and its outgoing weight is at most the
/// new weight; or the importer isn't the source and its incoming weight is at most the new weight.
pub fn reduction_keeps_flows()
    // The new network is a reduction of the old one.
    ensures { (old new : Network) (a b k amount : ℕ) → AreBetween old.imports (length old.names) → a < length old.names → a ≢ b →
        IsReducedAt old new a b k amount → IsReduced old new a b }
{}

/// A reduction of a reduction of a network is a reduction of that network.
pub fn reductions_compose()
    // The last network is a reduction of the first.
    ensures { (one two three : Network) (a b : ℕ) → IsReduced one two a b → IsReduced two three a b → IsReduced one three a b }
{}

/// Any sequence of reductions of single imports loses no flow.
pub fn reductions_keep_flows()
    // The last network is a reduction of the first.
    ensures { (steps : List (ℕ × ℕ)) (old new : Network) (a b : ℕ) → AreBetween old.imports (length old.names) → a < length old.names → a ≢ b →
        AreReductions old new a b steps → IsReduced old new a b }
{}

/// A reduced network has exactly the flows of the original one between the two modules.
pub fn reduced_has_equal_flows()
    // A flow of the one network is a flow of the other.
    ensures { (old new : Network) (a b : ℕ) → IsReduced old new a b → (flow : Priced → ℕ) (value : ℕ) → DependsOnEndsOnly flow →
        (IsFlow old a b flow value) ↔ (IsFlow new a b flow value) }
{}

/// A maximum flow of the reduced network is one of the original network: b isn't reachable from a in its residual graph.
pub fn reduced_maximum_is_maximum()
    // A maximum flow of the reduced network is one of the original network.
    ensures { (old new : Network) (a b : ℕ) → IsReduced old new a b → (flow : Priced → ℕ) (value : ℕ) → DependsOnEndsOnly flow →
        IsMaxFlow new a b flow value → IsMaxFlow old a b flow value }
{}

/// A flow in whose residual graph b isn't reachable from a has the maximum value. That b isn't reachable is equivalent to the existence of
/// a set of modules with a and without b that no residual import leaves.
pub fn max_flow_has_max_value()
    // No flow has a larger value.
    ensures most { (net : Network) (a b : ℕ) (flow : Priced → ℕ) (value : ℕ) → AreBetween net.imports (length net.names) → a < length net.names →
        IsMaxFlow net a b flow value → (other : Priced → ℕ) (more : ℕ) → IsFlow net a b other more → more ≤ value }
    // A set of modules separates b from a in the residual graph exactly if b isn't reachable there.
    ensures unreached { (net : Network) (a b : ℕ) (flow : Priced → ℕ) (modules : ℕ → Bool) → IsSetOf modules (Reached net flow a) →
        (IsUnreachable net flow a b) ↔ (modules b ≡ false) }
{}

/// A flow that is given by a list of imports with amounts depends only on the two modules of an import, not on its weight.
pub fn line_flow_depends_on_ends()
    // The flow of lines depends only on the modules of an import.
    ensures { (lines : List Priced) → DependsOnEndsOnly (flow_by lines) }
{}

/// A flow from a to b is a flow from b to a in the reversed network, with an equal value, and vice versa.
pub fn reversed_has_equal_flows()
    // A flow of the one network is, reversed, a flow of the other.
    ensures { (net : Network) (a b : ℕ) (flow : Priced → ℕ) (value : ℕ) → AreBetween net.imports (length net.names) →
        a < length net.names → b < length net.names → a ≢ b →
        (IsFlow net a b flow value) ↔ (IsFlow (reversed_net net) b a (reversed_flow flow) value) }
{}

/// A maximum flow from a to b is a maximum flow from b to a in the reversed network, and vice versa.
pub fn reversed_maximum_is_maximum()
    // A maximum flow of the one network is, reversed, one of the other.
    ensures { (net : Network) (a b : ℕ) (flow : Priced → ℕ) (value : ℕ) → AreBetween net.imports (length net.names) →
        a < length net.names → b < length net.names → a ≢ b →
        (IsMaxFlow net a b flow value) ↔ (IsMaxFlow (reversed_net net) b a (reversed_flow flow) value) }
{}

/// A flow of a subnetwork, extended by 0 to all other imports, is a flow of the whole network, with an equal value.
pub fn part_flow_is_flow()
    // The extended flow is a flow of the whole network.
    ensures { (net : Network) (kept : ℕ → Bool) (a b : ℕ) (flow : Priced → ℕ) (value : ℕ) →
        IsFlow (part_of net kept) a b flow value → IsFlow net a b (internal_flow kept flow) value }
{}

/// In an acyclic network a flow from a to b is 0 except on imports between modules on paths from a to b. So it is a flow of the
/// subnetwork of these modules.
pub fn flow_stays_in_subnetwork()
    // Imports outside the subnetwork carry nothing, and the flow is one of the subnetwork.
    ensures { (net : Network) (kept : ℕ → Bool) (a b : ℕ) (flow : Priced → ℕ) (value : ℕ) → AreBetween net.imports (length net.names) → a < length net.names →
        IsAcyclic net.imports → IsSetOf kept (IsBetween net a b) → IsFlow net a b flow value →
        ((i : Priced) → Contains net.imports i → are_ends_in kept i ≡ false → flow i ≡ 0) × IsFlow (part_of net kept) a b flow value }
{}

/// A maximum flow of the subnetwork of the modules on paths from a to b, extended by 0, is a maximum flow of the whole network.
pub fn part_maximum_is_maximum()
    // The extended flow is a maximum flow of the whole network.
    ensures { (net : Network) (kept : ℕ → Bool) (a b : ℕ) → IsSetOf kept (IsBetween net a b) → (flow : Priced → ℕ) (value : ℕ) →
        IsMaxFlow (part_of net kept) a b flow value → IsMaxFlow net a b (internal_flow kept flow) value }
{}

/// The reported imports of the subnetwork of the modules on paths from a to b are those of the whole network.
pub fn part_reports_equal_cut()
    // The reported imports of the subnetwork are those of the whole network.
    ensures { (net : Network) (kept : ℕ → Bool) (a b : ℕ) → IsSetOf kept (IsBetween net a b) →
        (x : Priced → Bool) → AreReported (part_of net kept) a b x → AreReported net a b (λ i. are_ends_in kept i && x i) }
{}

/// A renumbered network has equal flows, and equal maximum flows.
pub fn renumbered_has_equal_flows()
    // A flow of the one network is, renumbered, a flow of the other.
    ensures flows { (whole small : Network) (number back : ℕ → ℕ) → IsRenumbered whole small number back → (a b : ℕ) → a < length small.names → b < length small.names →
        (flow : Priced → ℕ) (value : ℕ) → (IsFlow small a b (flow_renumbered number flow) value) ↔ (IsFlow whole (number a) (number b) flow value) }
    // A maximum flow of the small network is, renumbered, one of the whole network.
    ensures greatest { (whole small : Network) (number back : ℕ → ℕ) → IsRenumbered whole small number back → (a b : ℕ) → a < length small.names → b < length small.names →
        (flow : Priced → ℕ) (value : ℕ) → IsMaxFlow small a b (flow_renumbered number flow) value → IsMaxFlow whole (number a) (number b) flow value }
{}

/// A renumbered network has the corresponding reported imports.
pub fn renumbered_reports_equal_cut()
    // The reported imports correspond.
    ensures { (whole small : Network) (number back : ℕ → ℕ) → IsRenumbered whole small number back → (a b : ℕ) → a < length small.names → b < length small.names →
        (x : Priced → Bool) → AreReported small a b x → AreReported whole (number a) (number b) (λ i. x (renumbered back i)) }
{}

/// A flow of the network that `between` returns, extended by 0, is a flow of the whole network, with an equal value. If it is maximum in
/// the subnetwork, it is maximum in the whole network.
pub fn subnetwork_has_equal_flows()
    // The extended flow is a flow of the whole network.
    ensures flows { (net small : Network) (a b : ℕ) (marks : List Bool) (numbers new_numbers : List ℕ) → a < length net.names → b < length net.names →
        IsSubnetwork net a b marks numbers new_numbers small → (flow : Priced → ℕ) (value : ℕ) →
        IsFlow small (slice_index new_numbers a) (slice_index new_numbers b) flow value → IsFlow net a b (flow_in_net marks new_numbers flow) value }
    // If a flow is maximum in the subnetwork, the extended flow is maximum in the whole network.
    ensures greatest { (net small : Network) (a b : ℕ) (marks : List Bool) (numbers new_numbers : List ℕ) → a < length net.names → b < length net.names →
        IsSubnetwork net a b marks numbers new_numbers small → (flow : Priced → ℕ) (value : ℕ) →
        IsMaxFlow small (slice_index new_numbers a) (slice_index new_numbers b) flow value → IsMaxFlow net a b (flow_in_net marks new_numbers flow) value }
{}

/// The reported imports of the network that `between` returns are those of the whole network, name by name.
pub fn subnetwork_reports_equal_cut()
    // The reported imports of the subnetwork are those of the whole network.
    ensures printed { (net small : Network) (a b : ℕ) (marks : List Bool) (numbers new_numbers : List ℕ) → a < length net.names → b < length net.names →
        IsSubnetwork net a b marks numbers new_numbers small → (x : Priced → Bool) →
        AreReported small (slice_index new_numbers a) (slice_index new_numbers b) x → AreReported net a b (reported_in_net marks new_numbers x) }
    // Corresponding modules have equal names.
    ensures names { (net small : Network) (a b : ℕ) (marks : List Bool) (numbers new_numbers : List ℕ) → IsSubnetwork net a b marks numbers new_numbers small →
        (m : ℕ) → is_flagged marks m ≡ true → name_of small (slice_index new_numbers m) ≡ name_of net m }
{}

/// An answer for the network that `between` returns becomes an answer for the whole network if the module numbers of its lines are
/// replaced by those of the whole network. A cheapest cut stays cheapest.
pub fn subnetwork_has_equal_answers()
    // The renumbered answer is one for the whole network.
    ensures answer { (net small : Network) (a b : ℕ) (marks : List Bool) (numbers new_numbers : List ℕ) → a < length net.names → b < length net.names →
        IsSubnetwork net a b marks numbers new_numbers small → (claim : AnswerClaim) →
        IsAnswer small (slice_index new_numbers a) (slice_index new_numbers b) claim → IsAnswer net a b (claim_in_net numbers claim) }
    // If its cut is cheapest in the subnetwork, it is cheapest in the whole network.
    ensures cheapest { (net small : Network) (a b : ℕ) (marks : List Bool) (numbers new_numbers : List ℕ) → a < length net.names → b < length net.names →
        IsSubnetwork net a b marks numbers new_numbers small → (claim : AnswerClaim) → IsAnswer small (slice_index new_numbers a) (slice_index new_numbers b) claim →
        IsCheapestAnswer small (slice_index new_numbers a) (slice_index new_numbers b) claim → IsCheapestAnswer net a b (claim_in_net numbers claim) }
{}

/// If no path leads from a to b, the zero flow is a maximum flow.
pub fn zero_flow_is_maximum_without_path()
    // The zero flow is maximum.
    ensures { (net : Network) (a b : ℕ) → (Chain net.imports Any a b → ⊥) → IsMaxFlow net a b (λ i. 0) 0 }
{}

/// If no two imports have equal modules, a list of flows by import number gives each import the flow of its number. Strictly sorted
/// imports have no two equal pairs of modules, and neither have their reversals.
pub fn flow_by_import_number()
    // Strictly sorted imports have distinct pairs of modules.
    ensures ascending { (imports : List Priced) → IsAscending imports → AreApart imports }
    // If imports have distinct pairs of modules, the reversed imports have too.
    ensures reversed { (imports : List Priced) → AreApart imports → AreApart (map reversed imports) }
    // The flow of an import is the entry of its number.
    ensures number { (imports : List Priced) (flow : List ℕ) → AreApart imports → length flow ≡ length imports → (k : ℕ) → k < length imports →
        flow_by (flow_lines imports flow) (import_in imports k) ≡ slice_index flow k }
{}
