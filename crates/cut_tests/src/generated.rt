//! Seeded networks of several shapes, on which the solver and the sequential solver agree.
ghost use Rattle.std.specs.Prelude.{◌<◌};

use crate::answers::{description, is_solved};
use crate::worked::net_of;
use cut_plain::plain;
use std::alloc::AllocError;
use std::process::Abort;
use std::sync::Wait;
use std::test::Fail;
use std::thread::Threads;

/// The number of networks of each shape.
const NETWORKS: u32 = 60;

/// The number of modules of each: M0 to M9.
const MODULES: u32 = 10;

/// The shape of a network: how far apart a module and its imports may be, how many of eight of these modules it imports on average, and how
/// many of eight imports are pinned and have a price on average.
struct Shape {
    nearest: u32,
    farthest: u32,
    imported: u32,
    priced: u32,
}

const SHAPES: &[Shape] = &[
    // Any modules.
    Shape {
        nearest: 1,
        farthest: 9,
        imported: 3,
        priced: 0,
    },
    // Nearly all modules.
    Shape {
        nearest: 1,
        farthest: 9,
        imported: 7,
        priced: 1,
    },
    // The next two modules.
    Shape {
        nearest: 1,
        farthest: 2,
        imported: 7,
        priced: 0,
    },
    // Layers.
    Shape {
        nearest: 2,
        farthest: 4,
        imported: 6,
        priced: 1,
    },
    // Distant modules.
    Shape {
        nearest: 3,
        farthest: 7,
        imported: 5,
        priced: 2,
    },
];

/// Seeded numbers: the linear congruential generator of MMIX (Knuth 1998).
#[derive(Drop)]
pub(crate) struct Seed {
    pub(crate) state: u64,
}

impl Seed {
    pub(crate) fn below(&mut self, count: u32) -> u32
        requires { 0 < count }
        ensures { result < count }
    {
        self.state = self
            .state
            .wrapping_mul(6364136223846793005)
            .wrapping_add(1442695040888963407);
        ((self.state >> 33) % u64::from(count)) as u32
    }

    /// Three of eight weights are 0.
    pub(crate) fn weight(&mut self) -> u64 {
        match self.below(8) {
            0..=2 => 0,
            3 => 1_000_000_007,
            other => u64::from(other) - 3,
        }
    }
}

/// Appends a line for an import, and perhaps one that pins it or gives it a price.
fn append_import(
    text: &mut String,
    prices: &mut String,
    seed: &mut Seed,
    (from, to): (u32, u32),
    priced: u32,
) -> Result<(), AllocError> {
    write!(text, "import M{from} M{to} {}\n", seed.weight())?;
    let chance = seed.below(8);
    if chance < priced {
        write!(prices, "pin M{from} M{to}\n")
    } else if chance >= 8 - priced.min(8) {
        write!(prices, "price M{from} M{to} {}\n", seed.weight())
    } else {
        Ok(())
    }
}

/// Appends a line for a module, and those of its imports.
fn append_module(
    text: &mut String,
    prices: &mut String,
    seed: &mut Seed,
    shape: &Shape,
    from: u32,
) -> Result<(), AllocError> {
    write!(text, "module M{from}\n")?;
    for far in shape.nearest..shape.farthest.saturating_add(1) {
        let to = from.saturating_add(far);
        if to < MODULES && seed.below(8) < shape.imported {
            append_import(text, prices, seed, (from, to), shape.priced)?;
        }
    }
    Ok(())
}

/// The lines of a network and of its prices.
fn append_network(
    text: &mut String,
    prices: &mut String,
    seed: &mut Seed,
    shape: &Shape,
) -> Result<(), AllocError> {
    for from in 0..MODULES {
        append_module(text, prices, seed, shape, from)?;
    }
    Ok(())
}

/// Checks that the checker accepts the result of the sequential solver, and that the solver's is equal except for the flow.
fn check_answers<R: Abort + Threads + Wait + AllocGlobal + Sync>(
    rt: &R,
    text: &str,
    prices: &str,
) -> Result<(), AllocError> {
    let net = net_of(rt.alloc(), text.as_bytes(), prices.as_bytes())?;
    let names = ("M0", "M9");
    let found = plain(rt.alloc(), &net, names.0, names.1);
    let want = description(rt.alloc(), &net, names, found, true)?;
    assert!(rt; !want.ends_with("stand"), "{text}{prices}{want}");
    is_solved(rt, &net, names, 1, want.as_str())?;
    is_solved(rt, &net, names, 2, want.as_str())
}

fn check_shape<R: Abort + Threads + Wait + AllocGlobal + Sync>(
    rt: &R,
    seed: &mut Seed,
    shape: &Shape,
) -> Result<(), AllocError> {
    for _ in 0..NETWORKS {
        let mut text = String::new(rt.alloc());
        let mut prices = String::new(rt.alloc());
        append_network(&mut text, &mut prices, seed, shape)?;
        check_answers(rt, text.as_str(), prices.as_str())?;
    }
    Ok(())
}

#[test]
fn generated_networks_have_one_answer(rt: HostRuntime) -> Result<(), Fail> {
    let mut seed = Seed { state: 1 };
    for shape in SHAPES {
        check_shape(&rt, &mut seed, shape)?;
    }
    Ok(())
}
