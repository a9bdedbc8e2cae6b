//! A scheduler of a tree of four modules, call by call: A imports B and C, which import D.
ghost use Rattle.std.specs.Prelude.{◌≡◌};

use crate::asked::Asked::Board as OnBoard;
use crate::asked::{Row, check_rows};
use crate::graphs::texts;
use std::alloc::{AllocError, Global};
use std::marker::Brand;
use std::sync::Arc;
use std::test::Fail;
use work_board::{Board, Graph, NamedTree, WorkEntry};

/// An entry with only the name of a module and its number.
#[derive(Drop)]
struct Named {
    name: String,
    number: Arc<u32>,
}

impl WorkEntry for Named {
    ghost use Rattle.std.specs.String.{string_bytes};
    ghost use Rattle.std.specs.Arc.{arc_value};

    type Shared = u32;

    ghost name_of = { λ e. string_bytes e.name };

    ghost is_of = { λ name e. Unit {0} };

    ghost shared_of = { λ e. arc_value e.number };

    fn name(&self) -> &str {
        self.name.as_str()
    }

    fn shared(&self) -> &Arc<u32> {
        &self.number
    }
}

/// A call of a scheduler.
pub(crate) enum Step {
    Claim,
    /// Delivers an entry of this name.
    Deliver(u32, &'static str),
    Abandon(u32),
    /// Requests the entries of the modules that a module reaches.
    Parts(u32),
}

/// Calls of a scheduler with their results, and the gathered entries.
const ROWS: &[Row] = &[
    // Up to completion.
    (
        OnBoard(&[
            Step::Abandon(0),
            Step::Claim,
            Step::Claim,
            Step::Parts(0),
            Step::Deliver(3, "D"),
            Step::Claim,
            Step::Claim,
            Step::Deliver(1, "C"),
            Step::Deliver(0, "A"),
            Step::Deliver(3, "D"),
            Step::Deliver(1, "B"),
            Step::Deliver(2, "C"),
            Step::Claim,
            Step::Parts(0),
            Step::Claim,
            Step::Deliver(0, "A"),
            Step::Claim,
        ]),
        "abandoned; Module { number: 3 }; Later; NotClaimed; taken; Module { number: 1 }; Module { number: 2 }; WrongModule; NotClaimed; \
         Twice; taken; taken; Module { number: 0 }; 123; Later; taken; Finished; ABCD",
    ),
    // Abandoned at its first module.
    (
        OnBoard(&[Step::Claim, Step::Abandon(3), Step::Claim]),
        "Module { number: 3 }; abandoned; Finished; ----",
    ),
    // A claimed module may still be delivered after the scheduler is abandoned.
    (
        OnBoard(&[
            Step::Claim,
            Step::Abandon(3),
            Step::Deliver(3, "D"),
            Step::Claim,
        ]),
        "Module { number: 3 }; abandoned; taken; Finished; ---D",
    ),
    // No module has the number.
    (
        OnBoard(&[
            Step::Claim,
            Step::Deliver(4294967295, "D"),
            Step::Abandon(4294967295),
            Step::Parts(4294967295),
            Step::Deliver(3, "D"),
            Step::Claim,
        ]),
        "Module { number: 3 }; NotClaimed; abandoned; NotClaimed; taken; Module { number: 1 }; ---D",
    ),
];

fn lists(alloc: Global, lists: &[&[u32]]) -> Result<Vec<Vec<u32>>, AllocError> {
    let mut copies = Vec::new(alloc);
    for list in lists {
        copies.push(list.to_vec(alloc)?)?;
    }
    Ok(copies)
}

fn named_entry(alloc: Global, number: u32, name: &str) -> Result<Named, AllocError> {
    Ok(Named {
        name: String::from_str(alloc, name)?,
        number: Arc::new(alloc, number)?,
    })
}

/// Delivers an entry of this name, and describes why it is rejected.
fn append_delivery<T: NamedTree>(
    alloc: Global,
    description: &mut String,
    board: &mut Board<'_, T, Named>,
    number: u32,
    name: &str,
) -> Result<(), AllocError> {
    match board.deliver(number, named_entry(alloc, number, name)?) {
        Ok(()) => description.push_str("taken"),
        Err((fault, _entry)) => write!(description, "{fault:?}"),
    }
}

/// Appends the numbers of entries, each a digit.
fn append_numbers(description: &mut String, parts: &[Arc<u32>]) -> Result<(), AllocError> {
    for part in parts {
        write!(description, "{}", **part)?;
    }
    Ok(())
}

fn append_parts<T: NamedTree>(
    description: &mut String,
    board: &Board<'_, T, Named>,
    number: u32,
) -> Result<(), AllocError> {
    match board.interfaces(number) {
        Ok(parts) => append_numbers(description, parts.as_slice()),
        Err(fault) => write!(description, "{fault:?}"),
    }
}

fn append_step<T: NamedTree>(
    alloc: Global,
    description: &mut String,
    board: &mut Board<'_, T, Named>,
    step: &Step,
) -> Result<(), AllocError> {
    match step {
        Step::Claim => write!(description, "{:?}", board.claim()),
        Step::Deliver(number, name) => append_delivery(alloc, description, board, *number, name),
        Step::Abandon(number) => {
            board.abandon(*number);
            description.push_str("abandoned")
        }
        Step::Parts(number) => append_parts(description, board, *number),
    }
}

fn append_steps<T: NamedTree>(
    alloc: Global,
    description: &mut String,
    board: &mut Board<'_, T, Named>,
    steps: &[Step],
) -> Result<(), AllocError> {
    for step in steps {
        append_step(alloc, description, board, step)?;
        description.push_str("; ")?;
    }
    Ok(())
}

/// Appends the names of entries, and a dash for each missing one.
fn append_entries(description: &mut String, entries: &[Option<Named>]) -> Result<(), AllocError> {
    for entry in entries {
        match entry {
            Some(entry) => description.push_str(entry.name.as_str())?,
            None => description.push_str("-")?,
        }
    }
    Ok(())
}

fn describe_run<T: NamedTree>(
    alloc: Global,
    graph: &Graph,
    steps: &[Step],
) -> Result<String, AllocError>
    requires { graph.now ≡ T.graph }
{
    let mut description = String::new(alloc);
    let mut board: Board<'_, T, Named> = Board::new(alloc, graph)?;
    append_steps(alloc, &mut description, &mut board, steps)?;
    append_entries(&mut description, board.gather().as_slice())?;
    Ok(description)
}

pub(crate) fn describe_board(alloc: Global, steps: &[Step]) -> Result<String, AllocError> {
    let names = texts(alloc, &["A", "B", "C", "D"])?;
    let imports = lists(alloc, &[&[1, 2], &[3], &[3], &[]])?;
    if !Graph::is_graph(names.as_slice(), imports.as_slice()) {
        return String::from_str(alloc, "no graph");
    }
    let graph = Graph::new(alloc, names, imports)?;
    describe_run::<Brand>(alloc, &graph, steps)
}

#[test]
fn board_steps_have_their_outcomes(rt: HostRuntime) -> Result<(), Fail> {
    check_rows(&rt, ROWS)
}
