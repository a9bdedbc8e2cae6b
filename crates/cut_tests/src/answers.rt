//! Results of the sequential solver and of the solver, compared with the checker, and each cut with a preflow of a single worker.
ghost use Rattle.std.specs.Prelude.{◌<◌, ◌≤◌, length};

use crate::description::expect;
use crate::preflows::{Scenario, run_scenario};
use crate::worked::{
    A_WAY_BACK, DIAMOND, THREE_IMPORTS, TWO_IMPORTS, TWO_WAYS, describe_answer, describe_removals,
    net_of,
};
use cut_check::{Verdict, check};
use cut_net::{Answer, Net, Priced};
use cut_plain::plain;
use cut_solve::{OpenGate, SolveFault, solve};
use std::alloc::{AllocError, Global};
use std::process::Abort;
use std::sync::Wait;
use std::test::Fail;
use std::thread::Threads;

/// Three paths from A to B. The modules are A to F.
const WAYS: &[u8] =
    b"import A C 1\nimport A D 1\nimport A E 1\nimport C B 1\nimport D B 1\nimport E F 1\nimport F B 1\n";

/// Weights with a zero, and a module without imports.
const MIXED: &[u8] = b"import M B 2\n\nmodule Z\nimport A M 3\nmodule A\nimport A B 0";

/// A network, its prices, the names of two modules, and the result, by the numbers of the modules.
const ROWS: &[(&[u8], &[u8], (&str, &str), &str)] = &[
    // Of two consecutive imports the first is cut.
    (
        TWO_IMPORTS,
        b"",
        ("A", "B"),
        "weight 2 remove 0 2 2 flow 0 2 2 flow 2 1 2",
    ),
    // One import is the cut.
    (
        b"import A B 2\n",
        b"",
        ("A", "B"),
        "weight 2 remove 0 1 2 flow 0 1 2",
    ),
    // The import A V leaves the minimal source side, but the cut doesn't need it.
    (
        TWO_WAYS,
        b"",
        ("A", "D"),
        "weight 1 remove 2 1 1 flow 0 2 1 flow 2 1 1",
    ),
    // Two parallel imports with a third of weight 0 are cut together.
    (
        MIXED,
        b"",
        ("A", "B"),
        "weight 2 remove 0 1 0 remove 2 1 2 flow 0 2 2 flow 2 1 2",
    ),
    // Nothing leads to a module without imports.
    (MIXED, b"", ("A", "Z"), "weight 0"),
    // Two paths branch after a module.
    (
        b"import A M 1\nimport M P 1\nimport M Q 1\nimport P B 1\nimport Q B 1\n",
        b"",
        ("A", "B"),
        "weight 1 remove 0 2 1 flow 0 2 1 flow 2 3 1 flow 3 1 1",
    ),
    // Two paths join before a module.
    (
        b"import A P 1\nimport A Q 1\nimport P M 1\nimport Q M 1\nimport M B 1\n",
        b"",
        ("A", "B"),
        "weight 1 remove 2 1 1 flow 0 3 1 flow 2 1 1 flow 3 2 1",
    ),
    // An import of weight 0 is cut.
    (b"import M N 0\n", b"", ("M", "N"), "weight 0 remove 0 1 0"),
    // Without a path nothing is cut.
    (TWO_IMPORTS, b"", ("B", "A"), "weight 0"),
    (DIAMOND, b"", ("D", "A"), "weight 0"),
    // An augmenting path cancels flow.
    (
        A_WAY_BACK,
        b"",
        ("S", "T"),
        "weight 2 remove 0 2 1 remove 0 3 1 flow 0 2 1 flow 0 3 1 flow 2 5 1 flow 3 4 1 flow 4 1 1 flow 5 1 1",
    ),
    // A path of three imports is cut at the first.
    (
        THREE_IMPORTS,
        b"",
        ("A", "B"),
        "weight 2 remove 0 2 2 flow 0 2 2 flow 2 3 2 flow 3 1 2",
    ),
    // Each of two paths is cut at its cheapest import.
    (
        DIAMOND,
        b"",
        ("A", "D"),
        "weight 2 remove 0 1 1 remove 2 3 1 flow 0 1 1 flow 0 2 1 flow 1 3 1 flow 2 3 1",
    ),
    // A total weight of 64 bits is cut.
    (
        b"import A B 9223372036854775808\nimport B C 9223372036854775807\n",
        b"",
        ("A", "C"),
        "weight 9223372036854775807 remove 1 2 9223372036854775807 \
        flow 0 1 9223372036854775807 flow 1 2 9223372036854775807",
    ),
    // Two paths are cut at the first imports if the later ones weigh as much.
    (
        b"import A B 1\nimport C D 3\nimport A C 2\nimport B D 2\n",
        b"",
        ("A", "D"),
        "weight 3 remove 0 1 1 remove 0 2 2 flow 0 1 1 flow 0 2 2 flow 1 3 1 flow 2 3 2",
    ),
    // Several flows have the maximum value, and the cut is unique.
    (
        b"import A M 2\nimport A N 2\nimport M B 3\nimport M N 1\nimport N B 3\nimport N C 1\nimport C B 1\n",
        b"",
        ("A", "B"),
        "weight 4 remove 0 3 2 remove 0 4 2 flow 0 3 2 flow 0 4 2 flow 2 1 1 flow 3 1 2 flow 4 1 1 flow 4 2 1",
    ),
    // A pin moves the cut to a later import.
    (
        DIAMOND,
        b"pin A B\n",
        ("A", "D"),
        "weight 4 remove 1 3 3 remove 2 3 1 flow 0 1 3 flow 0 2 1 flow 1 3 3 flow 2 3 1",
    ),
    // No cut exists if a path of pinned imports joins the modules.
    (
        DIAMOND,
        b"pin A B\npin B D\n",
        ("A", "D"),
        "blocked [0, 1, 3]",
    ),
    // A path of pinned imports to another module is no obstacle.
    (
        DIAMOND,
        b"pin A B\npin B D\n",
        ("A", "C"),
        "weight 2 remove 0 2 2 flow 0 2 2",
    ),
    // Pinned imports on each path, and not all imports of any path.
    (
        WAYS,
        b"pin A C\npin D B\npin E F\npin F B\n",
        ("A", "B"),
        "weight 3 remove 0 3 1 remove 0 4 1 remove 2 1 1 \
        flow 0 2 1 flow 0 3 1 flow 0 4 1 flow 2 1 1 flow 3 1 1 flow 4 5 1 flow 5 1 1",
    ),
    // Pinned imports on no path are no obstacle.
    (DIAMOND, b"pin A B\npin B D\n", ("D", "A"), "weight 0"),
    // An import with price 0 is cut at no cost.
    (
        DIAMOND,
        b"price A C 0\n",
        ("A", "D"),
        "weight 1 remove 0 1 1 remove 0 2 0 flow 0 1 1 flow 1 3 1",
    ),
    // Prices of the maximum number.
    (
        TWO_IMPORTS,
        b"price A M 1099511627776\npin M B\n",
        ("A", "B"),
        "weight 1099511627776 remove 0 2 1099511627776 flow 0 2 1099511627776 flow 2 1 1099511627776",
    ),
    (
        TWO_IMPORTS,
        b"price A M 1099511627774\n",
        ("A", "B"),
        "weight 2 remove 2 1 2 flow 0 2 2 flow 2 1 2",
    ),
    // The reported path of pinned imports is a shortest one, and the lexicographically smallest of these.
    (
        WAYS,
        b"pin A E\npin E F\npin F B\n",
        ("A", "B"),
        "blocked [0, 4, 5, 1]",
    ),
    (
        WAYS,
        b"pin A E\npin E F\npin F B\npin A D\npin D B\n",
        ("A", "B"),
        "blocked [0, 3, 1]",
    ),
    (
        WAYS,
        b"pin A D\npin D B\npin A C\npin C B\n",
        ("A", "B"),
        "blocked [0, 2, 1]",
    ),
    // The first unknown name is reported.
    (TWO_IMPORTS, b"", ("Q", "Z"), "no module is named Q"),
    (TWO_IMPORTS, b"", ("Q", "B"), "no module is named Q"),
    (TWO_IMPORTS, b"", ("A", "Q"), "no module is named Q"),
    (TWO_IMPORTS, b"", ("Q", "Q"), "no module is named Q"),
    // A module can't be cut from itself.
    (TWO_IMPORTS, b"", ("M", "M"), "both names are of one module"),
];

/// Whether exactly these imports lead out of the set of modules.
fn are_leaving_imports(imports: &[Priced], side: &[bool]) -> bool {
    for import in imports {
        if side.get(import.from as usize) != Some(&true)
            || side.get(import.to as usize) != Some(&false)
        {
            return false;
        }
    }
    true
}

/// Whether the imports of a cut are exactly those that leave the minimal source side, once a preflow has run to completion without other
/// workers. The cut has its flow then.
fn is_minimal_cut(
    alloc: Global,
    net: &Net,
    ends: (u32, u32),
    answer: &mut Answer,
) -> Result<bool, AllocError> {
    match answer {
        Answer::Blocked { .. } => Ok(true),
        Answer::Cut(cut) => {
            let settled = run_scenario(alloc, net, ends, Scenario::Steps(&[]))?;
            cut.flow = settled.flow;
            Ok(are_leaving_imports(&cut.imports, &settled.side))
        }
    }
}

/// Whether the checker accepts a result, also with the flow of a preflow, and the preflow gives an equal cut.
fn is_accepted_by_checker(
    alloc: Global,
    net: &Net,
    ends: (u32, u32),
    mut answer: Answer,
) -> Result<bool, AllocError>
    requires from { ends.0 < length net.now.names }
    requires to { ends.1 < length net.now.names }
{
    let found = check(alloc, net, ends.0, ends.1, &answer)?;
    let settled = is_minimal_cut(alloc, net, ends, &mut answer)?;
    let again = check(alloc, net, ends.0, ends.1, &answer)?;
    Ok(settled && matches!((found, again), (Verdict::Yes, Verdict::Yes)))
}

/// Appends a result, with or without its flow, and whether the checker accepts it.
fn describe_solution(
    alloc: Global,
    net: &Net,
    names: (&str, &str),
    answer: Answer,
    whole: bool,
) -> Result<String, AllocError> {
    let (Some(from), Some(to)) = (net.index_of(names.0), net.index_of(names.1)) else {
        return Err(AllocError);
    };
    if from >= net.nodes() || to >= net.nodes() {
        return Err(AllocError);
    }
    let mut description = if whole {
        describe_answer(alloc, &answer)?
    } else {
        describe_removals(alloc, &answer)?
    };
    if !is_accepted_by_checker(alloc, net, (from, to), answer)? {
        description.push_str(", which doesn't stand")?;
    }
    Ok(description)
}

/// The description of a result for these names. No result is rejected.
pub(crate) fn description(
    alloc: Global,
    net: &Net,
    names: (&str, &str),
    found: Result<Answer, SolveFault>,
    whole: bool,
) -> Result<String, AllocError> {
    match found {
        Ok(answer) => describe_solution(alloc, net, names, answer, whole),
        Err(SolveFault::Memory) => Err(AllocError),
        Err(fault) => format!(in alloc; "{fault}"),
    }
}

/// Checks that the solver finds an equal result with this many workers, except for the flow, as there may be several.
pub(crate) fn is_solved<R: Abort + Threads + Wait + AllocGlobal + Sync>(
    rt: &R,
    net: &Net,
    names: (&str, &str),
    workers: u32,
    want: &str,
) -> Result<(), AllocError>
    requires { (1 ≤ workers) × (workers ≤ 64) }
{
    let found = solve(rt, rt.alloc(), net, names.0, names.1, workers, &OpenGate);
    let description = description(rt.alloc(), net, names, found, false)?;
    assert!(rt; want.starts_with(description.as_str()), "{description}");
    Ok(())
}

#[test]
fn worked_networks_have_their_answers(rt: HostRuntime) -> Result<(), Fail> {
    for (net, prices, names, want) in ROWS {
        let net = net_of(rt.alloc(), net, prices)?;
        let found = plain(rt.alloc(), &net, names.0, names.1);
        let description = description(rt.alloc(), &net, *names, found, true)?;
        expect(&rt, description.as_str(), want);
        is_solved(&rt, &net, *names, 1, want)?;
        is_solved(&rt, &net, *names, 2, want)?;
    }
    Ok(())
}
