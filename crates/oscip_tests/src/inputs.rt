//! Inputs with their outputs, computed by hand, and the order of files.
use source_tree::{Source, in_order};
use std::alloc::{AllocError, Global};
use std::test::Fail;

pub const SIX: &[u8] = b"import A M 2\nimport M B 2\n";

pub const SIX_CUT: &[u8] = b"cut A B\nweight 2\nremove A M 2\nflow A M 2\nflow M B 2\nend\n";

/// Prices with which no cut between A and B exists, and the report of that.
pub const SIX_PINS: &[u8] = b"pin A M\npin M B\n";

pub const SIX_BLOCKED: &[u8] = b"cut A B\nblocked A M B\nend\n";

/// The path from A to B.
pub const SIX_WHY: &[u8] = b"import A M 2\nimport M B 2\n";

/// The picture of the report without prices.
pub const SIX_DOT: &[u8] =
    b"digraph cut {\n  rankdir=LR;\n  label=\"flow/weight; red: removed; bold: pinned; gray: still reached; double border: the two ends\";\n  \"A\" [peripheries=2] [style=filled];\n  \"B\" [peripheries=2];\n  \"M\";\n  \"A\" -> \"M\" [label=\"2/2\"] [style=dashed, color=red];\n  \"M\" -> \"B\" [label=\"2/2\"];\n}\n";

/// Files with their paths and sources. B uses D more often than A uses B, and C less often.
pub const FOUR: &[(&str, &str)] = &[
    ("A.Mod", "MODULE A; IMPORT B, C; BEGIN B.p; C.q; C.q END A."),
    (
        "B.Mod",
        "MODULE B; IMPORT D; PROCEDURE p*; BEGIN D.x; D.x; D.x END p; END B.",
    ),
    (
        "C.Mod",
        "MODULE C; IMPORT D; PROCEDURE q*; BEGIN D.x END q; END C.",
    ),
    ("D.Mod", "MODULE D; PROCEDURE x*; END x; END D."),
];

pub const FOUR_CUT: &[u8] =
    b"cut A D\nweight 2\nremove A B 1\nremove C D 1\nflow A B 1\nflow A C 1\nflow B D 1\nflow C D 1\nend\n";

/// The picture of it.
pub const FOUR_DOT: &[u8] =
    b"digraph cut {\n  rankdir=LR;\n  label=\"flow/weight; red: removed; bold: pinned; gray: still reached; double border: the two ends\";\n  \"A\" [peripheries=2] [style=filled];\n  \"B\";\n  \"C\" [style=filled];\n  \"D\" [peripheries=2];\n  \"A\" -> \"B\" [label=\"1/1\"] [style=dashed, color=red];\n  \"A\" -> \"C\" [label=\"1/2\"];\n  \"B\" -> \"D\" [label=\"1/3\"];\n  \"C\" -> \"D\" [label=\"1/1\"] [style=dashed, color=red];\n}\n";

/// The locations where B uses D.
pub const FOUR_CROSSINGS: &[u8] = b"B.Mod:0:40-0:43\nB.Mod:0:45-0:48\nB.Mod:0:50-0:53\n";

/// Their network.
pub const FOUR_NET: &[u8] =
    b"module A\nmodule B\nmodule C\nmodule D\nimport A B 1\nimport A C 2\nimport B D 3\nimport C D 1\n";

/// The path from A to D: through B. Through C there are as many imports, and B is lexicographically smaller.
pub const FOUR_WHY: &[u8] = b"import A B 1\nimport B D 3\n";

/// Rules that A and C break: one import of B is allowed, and C imports D.
pub const FOUR_RULES: &[u8] = b"forbid A D\nset S B\nset S C\nforbid S D\nallow B D\n";

pub const FOUR_BROKEN: &[u8] = b"C.Mod:0:17: no 1 A C D\nC.Mod:0:17: no 4 C D\n";

/// Their modules.
pub const FOUR_MODULES: &[u8] = b"A A.Mod\nB B.Mod\nC C.Mod\nD D.Mod\n";

/// Prices with which no cut between A and D exists, and the report of that.
pub const FOUR_PINS: &[u8] = b"pin A B\npin B D\n";

pub const FOUR_BLOCKED: &[u8] = b"cut A D\nblocked A B D\nend\n";

pub const ONE: &[(&str, &str)] = &[("M.Mod", "MODULE M; END M.")];

/// The index of that file, without package and root.
pub const ONE_INDEX: &[u8] =
    b"\x0a\x0e\x12\x0a\x0a\x05oscip\x12\x011 \x01\x12m\x0a\x05M.Mod\x12\x22\x0a\x03\x00\x07\x08\x12\x14scip-oberon . . . M/\x18\x01:\x03\x00\x00\x10\x12\x1b\x0a\x03\x00\x0e\x0f\x12\x14scip-oberon . . . M/\x1a\x19\x0a\x14scip-oberon . . . M/2\x01M\x22\x06Oberon0\x01";

/// Its line of hexadecimal digits.
pub const ONE_HEX: &[u8] =
    b"0a0e120a0a056f736369701201312001126d0a054d2e4d6f6412220a030007081214736369702d6f6265726f6e202e202e202e204d2f18013a03000010121b0a03000e0f1214736369702d6f6265726f6e202e202e202e204d2f1a190a14736369702d6f6265726f6e202e202e202e204d2f32014d22064f6265726f6e3001\n";

/// The index of no file, without package and root.
pub const NONE_INDEX: &[u8] = b"\x0a\x0e\x12\x0a\x0a\x05oscip\x12\x011 \x01";

/// A file with an unresolved name, and its line.
pub const WRONG: &[(&str, &str)] = &[("A.Mod", "MODULE A; BEGIN x := 1 END A.")];

pub const WRONG_LINE: &[u8] = b"A.Mod:0:16 x\n";

/// Files that import no other file.
pub const TWO: &[(&str, &str)] = &[("A.Mod", "MODULE A; END A."), ("B.Mod", "MODULE B; END B.")];

/// Files of which the last has to be processed before the others.
pub const THREE: &[(&str, &str)] = &[
    ("A.Mod", "MODULE A; IMPORT C; END A."),
    ("B.Mod", "MODULE B; IMPORT C; END B."),
    ("C.Mod", "MODULE C; END C."),
];

/// Paths, and whether they are sorted.
const ORDERS: &[(&[(&str, &str)], bool)] = &[
    (&[], true),
    (&[("a", "")], true),
    (
        &[
            ("A.Mod", ""),
            ("a-b.Mod", ""),
            ("a.Mod", ""),
            ("a/b.Mod", ""),
        ],
        true,
    ),
    (&[("a.Mod", ""), ("A.Mod", "")], false),
    (&[("a.Mod", ""), ("a.Mod", "")], false),
    (&[("a", ""), ("b", ""), ("c", ""), ("ab", "")], false),
];

/// The files with these paths and sources.
pub fn sources(alloc: Global, files: &[(&str, &str)]) -> Result<Vec<Source>, AllocError> {
    let mut sources = Vec::new(alloc);
    for (path, text) in files {
        let path = String::from_str(alloc, path)?;
        let bytes = text.as_bytes().to_vec(alloc)?;
        sources.push(Source { path, bytes })?;
    }
    Ok(sources)
}

#[test]
fn order_is_strict_and_by_bytes(rt: HostRuntime) -> Result<(), Fail> {
    for (files, ordered) in ORDERS {
        let sources = sources(rt.alloc(), files)?;
        assert_eq!(rt; in_order(sources.as_slice()), *ordered);
    }
    Ok(())
}
