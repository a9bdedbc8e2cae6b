//! Verdicts on results that no report states: lines with unknown numbers, unsorted, repeated, or without flow, and paths that are empty or
//! have unknown numbers.

use crate::description::expect;
use crate::worked::{DIAMOND, TWO_IMPORTS, TWO_WAYS, net_of};
use cut_check::check;
use cut_net::{Answer, Cut, Net, Priced};
use std::alloc::{AllocError, Global};
use std::test::Fail;

/// A line of an import: the importing module, the imported one, and an amount.
type Line = (u32, u32, u64);

/// A claim about two modules.
#[derive(Clone, Copy)]
enum Claim {
    /// The imports of a cut, its weight and its flow.
    Cut(&'static [Line], u64, &'static [Line]),
    /// A path of pinned imports.
    Chain(&'static [u32]),
}

/// The numbers of the modules of TWO_IMPORTS.
const A: u32 = 0;

const B: u32 = 1;

const M: u32 = 2;

/// A network, its prices, a claim about its first module and the one with this number, and the verdict.
const ROWS: &[(&[u8], &[u8], u32, Claim, &str)] = &[
    (
        TWO_IMPORTS,
        b"",
        B,
        Claim::Cut(&[(A, M, 2)], 2, &[(A, M, 2), (M, B, 2)]),
        "Yes",
    ),
    (
        TWO_IMPORTS,
        b"",
        B,
        Claim::Cut(&[(A, M, 2)], 2, &[(A, M, 2), (A, M, 2), (M, B, 2)]),
        "NoSuchImport { from: 0, to: 2 }",
    ),
    (
        TWO_IMPORTS,
        b"",
        B,
        Claim::Cut(&[(A, M, 2)], 2, &[(M, B, 2), (A, M, 2)]),
        "NoSuchImport { from: 0, to: 2 }",
    ),
    (
        TWO_IMPORTS,
        b"",
        B,
        Claim::Cut(
            &[(7, 9, 18446744073709551615)],
            2,
            &[(A, M, 2), (B, A, 1), (M, B, 2)],
        ),
        "NoSuchImport { from: 7, to: 9 }",
    ),
    // A flow of 0 in a line counts too.
    (
        TWO_WAYS,
        b"",
        1,
        Claim::Cut(&[(2, 1, 1)], 1, &[(0, 2, 1), (0, 3, 0), (2, 1, 1)]),
        "Yes",
    ),
    // A path needs its ends, and numbers may be unknown.
    (DIAMOND, b"", 3, Claim::Chain(&[]), "StillChain"),
    (
        DIAMOND,
        b"pin A B\npin B D\n",
        3,
        Claim::Chain(&[0, 4294967295, 3]),
        "NotPinned { from: 0, to: 4294967295 }",
    ),
];

fn lines_of(alloc: Global, rows: &[Line]) -> Result<Vec<Priced>, AllocError> {
    let mut lines = Vec::new(alloc);
    for (from, to, amount) in rows {
        lines.push(Priced {
            from: *from,
            to: *to,
            amount: *amount,
        })?;
    }
    Ok(lines)
}

fn make_answer(alloc: Global, claim: Claim) -> Result<Answer, AllocError> {
    match claim {
        Claim::Cut(imports, weight, flow) => {
            let imports = lines_of(alloc, imports)?;
            let flow = lines_of(alloc, flow)?;
            Ok(Answer::Cut(Cut {
                imports,
                weight,
                flow,
            }))
        }
        Claim::Chain(chain) => {
            let chain = chain.to_vec(alloc)?;
            Ok(Answer::Blocked { chain })
        }
    }
}

fn describe_check(alloc: Global, net: &Net, to: u32, claim: Claim) -> Result<String, AllocError> {
    if to >= net.nodes() {
        return Err(AllocError);
    }
    let verdict = check(alloc, net, 0, to, &make_answer(alloc, claim)?)?;
    format!(in alloc; "{verdict:?}")
}

#[test]
fn answers_that_no_report_states_are_checked(rt: HostRuntime) -> Result<(), Fail> {
    for (net, prices, to, claim, want) in ROWS {
        let net = net_of(rt.alloc(), net, prices)?;
        let description = describe_check(rt.alloc(), &net, *to, *claim)?;
        expect(&rt, description.as_str(), want);
    }
    Ok(())
}
