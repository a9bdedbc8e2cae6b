//! Prices of a network, its subnetwork between two modules, reduced capacities, reversed imports, and the direction of a preflow.
ghost use Rattle.std.specs.Prelude.{◌<◌, IsTrue};

use crate::description::expect;
use crate::worked::{DIAMOND, TWO_IMPORTS, TWO_WAYS, append_lines, net_of};
use cut_net::{Net, PriceFault};
use cut_part::{between, reduced_capacities, reversed_imports};
use cut_solve::preflow_input;
use std::alloc::{AllocError, Global};
use std::test::Fail;

/// A property of a network.
#[derive(Clone, Copy)]
enum Asked {
    /// The imports, with their weights or as pinned.
    Whole,
    /// The subnetwork between two modules: the names of its modules, its imports, the number in the network of each of its modules, and for
    /// each module of the network whether it is on a path.
    Between(u32, u32),
    /// The imports with their capacities reduced in this order of their numbers, between the first two modules.
    Narrowed(&'static [u32]),
    /// The reversed imports.
    Turned,
    /// The source and the sink of a preflow between the first two modules, and its imports.
    Start,
}

/// A and X import B and aren't reachable, and Y is a dead end after C. The modules are A, B, C, D, X and Y.
const WITH_ODDS: &[u8] =
    b"import A B 1\nimport B C 2\nimport C D 3\nimport A D 9\nimport X B 1\nimport C Y 1\n";

/// A small capacity before a large one. The modules are A, B, M and N.
const NARROW_FIRST: &[u8] = b"import A M 2\nimport M N 7\nimport N B 5\n";

/// One import leaves A and two lead to B. The modules are A, B, P, X and Y.
const SCARCE_FIRST: &[u8] =
    b"import A P 1\nimport P X 1\nimport P Y 1\nimport X B 1\nimport Y B 1\n";

/// Two imports leave A and one leads to B. The modules are A, B, Q, X and Y.
const SCARCE_LAST: &[u8] =
    b"import A X 1\nimport A Y 1\nimport X Q 1\nimport Y Q 1\nimport Q B 1\n";

/// The imports of A and to B weigh much, and those between them little. The modules are A, B, P, X and Y.
const SCARCE_BEHIND: &[u8] = b"import A P 9\nimport P X 1\nimport X B 2\nimport Y B 5\n";

/// An import above the maximum total weight of imports without pins.
const HEAVY: &[u8] = b"import A B 1099511627777\n";

/// A network, its prices, further prices, the property and its expected value.
type Row = (
    &'static [u8],
    &'static [u8],
    &'static [u8],
    Asked,
    &'static str,
);

const ROWS: &[Row] = &[
    // All modules on two paths remain.
    (
        TWO_WAYS,
        b"",
        b"",
        Asked::Between(0, 1),
        " A D U V import 0 2 5 import 0 3 0 import 2 1 1 import 3 2 3; [0, 1, 2, 3] [true, true, true, true]",
    ),
    // One import remains.
    (
        DIAMOND,
        b"",
        b"",
        Asked::Between(1, 3),
        " B D import 0 1 3; [1, 3] [false, true, false, true]",
    ),
    // Both ends remain if there is no path.
    (
        DIAMOND,
        b"",
        b"",
        Asked::Between(3, 0),
        " A D; [0, 3] [false, false, false, false]",
    ),
    (
        DIAMOND,
        b"",
        b"",
        Asked::Between(1, 2),
        " B C; [1, 2] [false, false, false, false]",
    ),
    // Modules on no path are left out.
    (
        WITH_ODDS,
        b"",
        b"",
        Asked::Between(1, 3),
        " B C D import 0 1 2 import 1 2 3; [1, 2, 3] [false, true, true, true, false, false]",
    ),
    // Prices and pins remain.
    (
        DIAMOND,
        b"",
        b"pin B D\nprice C D 7\n",
        Asked::Between(0, 3),
        " A B C D import 0 1 1 import 0 2 2 pin 1 3 3 import 2 3 7; [0, 1, 2, 3] [true, true, true, true]",
    ),
    (
        DIAMOND,
        b"",
        b"pin B D\npin C D\n",
        Asked::Between(2, 3),
        " C D pin 0 1 1; [2, 3] [false, false, true, true]",
    ),
    // Capacities are reduced from both sides.
    (
        NARROW_FIRST,
        b"",
        b"",
        Asked::Narrowed(&[0, 1, 2]),
        " import 0 2 2 import 2 3 2 import 3 1 2",
    ),
    (
        TWO_WAYS,
        b"",
        b"",
        Asked::Narrowed(&[0, 1, 3, 2]),
        " import 0 2 1 import 0 3 0 import 2 1 1 import 3 2 0",
    ),
    // Capacities that can be used remain.
    (
        TWO_IMPORTS,
        b"",
        b"",
        Asked::Narrowed(&[0, 1]),
        " import 0 2 2 import 2 1 2",
    ),
    (
        TWO_WAYS,
        b"",
        b"",
        Asked::Turned,
        " import 2 0 5 import 3 0 0 import 1 2 1 import 2 3 3",
    ),
    // If both ends weigh equally, the source is the first module.
    (
        TWO_IMPORTS,
        b"",
        b"",
        Asked::Start,
        " 0 1 import 0 2 2 import 2 1 2",
    ),
    (
        TWO_WAYS,
        b"",
        b"",
        Asked::Start,
        " 0 1 import 0 2 1 import 0 3 0 import 2 1 1 import 3 2 0",
    ),
    // The source is the end whose imports weigh less, here the first module.
    (
        SCARCE_FIRST,
        b"",
        b"",
        Asked::Start,
        " 0 1 import 0 2 1 import 2 3 1 import 2 4 1 import 3 1 1 import 4 1 1",
    ),
    // Here it is the second module: each import is reversed.
    (
        SCARCE_LAST,
        b"",
        b"",
        Asked::Start,
        " 1 0 import 3 0 1 import 4 0 1 import 1 2 1 import 2 3 1 import 2 4 1",
    ),
    // Capacity that no flow can use doesn't count.
    (
        SCARCE_BEHIND,
        b"",
        b"",
        Asked::Start,
        " 0 1 import 0 2 1 import 2 3 1 import 3 1 1 import 4 1 0",
    ),
    // An import without a line is unchanged.
    (
        DIAMOND,
        b"",
        b"",
        Asked::Whole,
        " import 0 1 1 import 0 2 2 import 1 3 3 import 2 3 1",
    ),
    // A pinned import keeps its weight.
    (
        DIAMOND,
        b"",
        b"pin B D\nprice A C 0\n\npin A B",
        Asked::Whole,
        " pin 0 1 1 import 0 2 0 pin 1 3 3 import 2 3 1",
    ),
    // A sum of 2^40 is permitted, and one more isn't.
    (
        TWO_IMPORTS,
        b"",
        b"price A M 1099511627774\n",
        Asked::Whole,
        " import 0 2 1099511627774 import 2 1 2",
    ),
    (
        TWO_IMPORTS,
        b"",
        b"price A M 1099511627775\n",
        Asked::Whole,
        "PriceOverflow",
    ),
    (
        TWO_IMPORTS,
        b"",
        b"price A M 1099511627776\npin M B\n",
        Asked::Whole,
        " import 0 2 1099511627776 pin 2 1 2",
    ),
    (
        HEAVY,
        b"",
        b"pin A B\n",
        Asked::Whole,
        " pin 0 1 1099511627777",
    ),
    (
        HEAVY,
        b"",
        b"price A B 1099511627776\n",
        Asked::Whole,
        " import 0 1 1099511627776",
    ),
    // A price removes a pin, and an import without a line is unchanged.
    (
        DIAMOND,
        b"pin A B\npin B D\nprice A C 7\n",
        b"price A B 2\n",
        Asked::Whole,
        " import 0 1 2 import 0 2 7 pin 1 3 3 import 2 3 1",
    ),
    // An import that is pinned again has the weight that it had before the first pin.
    (
        DIAMOND,
        b"price A B 5\npin C D\n",
        b"pin A B\npin C D\n",
        Asked::Whole,
        " pin 0 1 5 import 0 2 2 import 1 3 3 pin 2 3 1",
    ),
    // The weight of a pinned import isn't counted, and that of an unpinned one is.
    (
        DIAMOND,
        b"pin A B\n",
        b"price A B 1099511627776\n",
        Asked::Whole,
        "PriceOverflow",
    ),
];

/// The names of the modules.
fn append_modules(text: &mut String, net: &Net) -> Result<(), AllocError> {
    for node in 0..net.nodes() {
        write!(text, " {}", net.name(node))?;
    }
    Ok(())
}

/// Each import with its weight, or as pinned with the weight before.
fn append_imports(text: &mut String, net: &Net) -> Result<(), AllocError> {
    net.invariants();
    for number in 0..net.imports().len() as u32 {
        let word = if net.pinned(number) { "pin" } else { "import" };
        append_lines(text, word, &[net.import(number)])?;
    }
    Ok(())
}

fn append_subnetwork(
    text: &mut String,
    alloc: Global,
    net: &Net,
    from: u32,
    to: u32,
) -> Result<(), AllocError> {
    if from >= net.nodes() || to >= net.nodes() {
        return Err(AllocError);
    }
    let part = between(alloc, net, from, to)?;
    append_modules(text, &part.net)?;
    append_imports(text, &part.net)?;
    write!(
        text,
        "; {:?} {:?}",
        part.numbers.as_slice(),
        part.marks.as_slice()
    )
}

/// Whether the number is below the number of imports.
fn is_number(number: u32, imports: usize) -> bool
    ensures { IsTrue result → number < imports }
{
    (number as usize) < imports
}

fn append_reduced_capacities(
    text: &mut String,
    alloc: Global,
    net: &Net,
    order: &[u32],
) -> Result<(), AllocError> {
    net.invariants();
    let imports = net.imports();
    if net.nodes() == 0 || order.iter().any(|k| !is_number(*k, imports.len())) {
        return Err(AllocError);
    }
    let less = reduced_capacities(alloc, imports, net.nodes(), order, 0, 1)?;
    append_lines(text, "import", &less)
}

fn append_preflow_input(text: &mut String, alloc: Global, net: &Net) -> Result<(), AllocError> {
    if net.nodes() < 2 {
        return Err(AllocError);
    }
    let start = preflow_input(alloc, net, 0, 1)?;
    write!(text, " {} {}", start.source, start.sink)?;
    append_lines(text, "import", &start.imports)
}

fn append_result(
    text: &mut String,
    alloc: Global,
    net: &Net,
    asked: Asked,
) -> Result<(), AllocError> {
    match asked {
        Asked::Whole => append_imports(text, net),
        Asked::Between(from, to) => append_subnetwork(text, alloc, net, from, to),
        Asked::Narrowed(order) => append_reduced_capacities(text, alloc, net, order),
        Asked::Turned => append_lines(text, "import", &reversed_imports(alloc, net.imports())?),
        Asked::Start => append_preflow_input(text, alloc, net),
    }
}

/// The description of the network with these prices, or the fault of the prices.
fn description(
    alloc: Global,
    net: &Net,
    prices: &[u8],
    asked: Asked,
) -> Result<String, AllocError> {
    let mut text = String::new(alloc);
    match net.price(prices) {
        Ok(net) => append_result(&mut text, alloc, &net, asked)?,
        Err(PriceFault::Memory) => return Err(AllocError),
        Err(fault) => write!(text, "{fault:?}")?,
    }
    Ok(text)
}

#[test]
fn networks_have_parts_and_starts(rt: HostRuntime) -> Result<(), Fail> {
    for (net, before, prices, asked, want) in ROWS {
        let net = net_of(rt.alloc(), net, before)?;
        let description = description(rt.alloc(), &net, prices, *asked)?;
        expect(&rt, description.as_str(), want);
    }
    Ok(())
}
