//! Networks of seven topologies. Modules are numbers and import only higher ones, so there is no cycle. The cut is between the first and
//! the last module. Imports near these are heavy, so the minimum cut is in the middle.
ghost use Rattle.std.specs.Prelude.{◌≤◌};

use crate::random::{Random, name_of, push_number};
use std::alloc::{AllocError, Global};

/// Which modules import which.
#[derive(Clone, Copy)]
pub enum Topology {
    /// Each module imports some of the next sixteenth of all modules.
    Banded,
    /// As `Banded`, with five of eight weights zero.
    Zeros,
    /// Each module of a layer imports some of the next layer, and some of the layer after that one.
    Layered,
    /// Modules that are imported often are more likely to be imported again.
    Powerlaw,
    /// Each module imports the next one, and some a little further on.
    Chain,
    /// Each module of one half imports modules of the other half.
    Wide,
    /// Each module imports the one below, and seven near it in the next column.
    Grid,
}

/// The imports of a network.
#[derive(Drop)]
struct Gathered {
    random: Random,
    last: u64,
    /// Both modules of each import in one number, with the import's weight.
    imports: Vec<(u64, u64)>,
}

impl Gathered {
    fn add(&mut self, from: u64, to: u64, weight: u64) -> Result<(), AllocError> {
        if from < to && to <= self.last {
            self.imports.push((from.wrapping_mul(65536) | to, weight))?;
        }
        Ok(())
    }

    fn light(&mut self) -> u64 {
        self.random.below(100) + 1
    }

    fn heavy(&mut self) -> u64 {
        self.random.below(100) + 1000
    }

    /// A random number up to this one.
    fn up_to(&mut self, most: u64) -> u64
        ensures { result ≤ most }
    {
        if most == u64::MAX {
            return 0;
        }
        self.random.below(most + 1)
    }

    /// Adds heavy imports from the first module, and to the last one.
    fn ends(&mut self, count: u64) -> Result<(), AllocError> {
        for nth in 1..=count.min(self.last / 2) {
            let (first, second) = (self.heavy(), self.heavy());
            self.add(0, nth, first)?;
            self.add(self.last - nth.min(self.last), self.last, second)?;
        }
        Ok(())
    }

    fn banded(&mut self, count: u64, zeros: u64) -> Result<(), AllocError> {
        self.ends(self.last / 16)?;
        for _ in 0..count {
            let from = self.up_to(self.last);
            let span = 1 + self.up_to(self.last / 16) % 65536;
            let weight = if self.random.below(8) < zeros {
                0
            } else {
                self.random.below(100)
            };
            self.add(from, from.saturating_add(span), weight)?;
        }
        Ok(())
    }

    fn layered(&mut self, count: u64, size: u64) -> Result<(), AllocError> {
        self.ends(size)?;
        for nth in 0..count {
            let from = if nth <= self.last {
                nth
            } else {
                self.up_to(self.last)
            };
            let further = if self.random.below(4) == 0 {
                size.saturating_mul(2)
            } else {
                size
            };
            let layer = from - from.min(from.checked_rem(size).unwrap_or(0));
            let to = layer
                .saturating_add(further)
                .saturating_add(self.up_to(size));
            let weight = self.light();
            self.add(from, to, weight)?;
        }
        Ok(())
    }

    fn powerlaw(&mut self, count: u64) -> Result<(), AllocError> {
        for nth in 0..count {
            let from = if nth < self.last {
                nth
            } else {
                self.up_to(self.last)
            };
            let left = self.last - from.min(self.last);
            let near = self.up_to(left);
            let nearer = self.up_to(near);
            let nearest = self.up_to(nearer);
            let weight = if nth < self.last / 8 {
                self.heavy()
            } else {
                self.light()
            };
            self.add(from, self.last - nearest.min(self.last), weight)?;
        }
        Ok(())
    }

    fn chain(&mut self, count: u64) -> Result<(), AllocError> {
        for nth in 0..count {
            let from = if nth < self.last {
                nth
            } else {
                self.up_to(self.last)
            };
            let step = if nth < self.last {
                1
            } else {
                2 + self.random.below(15)
            };
            let light = self.light();
            let near = from < self.last / 16 || from > self.last - self.last / 16;
            let weight = if near {
                light.saturating_mul(20)
            } else {
                light
            };
            self.add(from, from.saturating_add(step), weight)?;
        }
        Ok(())
    }

    fn wide(&mut self, count: u64) -> Result<(), AllocError> {
        let half = self.last / 2;
        for nth in 1..=half {
            let (first, second) = (self.light(), self.light());
            self.add(0, nth, first.saturating_mul(4))?;
            self.add(
                half.saturating_add(nth),
                self.last,
                second.saturating_mul(4),
            )?;
        }
        for _ in 0..count {
            let from = self.up_to(half);
            let to = half.saturating_add(self.up_to(half));
            let weight = self.light();
            self.add(from.max(1), to, weight)?;
        }
        Ok(())
    }

    fn grid(&mut self, count: u64, rows: u64) -> Result<(), AllocError> {
        self.ends(rows)?;
        for nth in 0..count {
            let from = 1 + nth.checked_rem(self.last).unwrap_or(0) % 65536;
            let round = nth.checked_div(self.last).unwrap_or(0) % 8;
            let next = from.saturating_add(rows).saturating_add(round);
            let to = if round == 0 {
                from + 1
            } else {
                next.saturating_sub(4)
            };
            let weight = self.light();
            self.add(from, to, weight)?;
        }
        Ok(())
    }

    /// Removes repeated imports and shuffles the others.
    fn dedup_and_shuffle(&mut self) {
        self.imports.sort_unstable();
        self.imports.dedup_by(|second, first| second.0 == first.0);
        let count = self.imports.len();
        for at in 0..count {
            let other = self.up_to(at as u64) as usize;
            if at < self.imports.len() && other < self.imports.len() {
                self.imports.swap(at, other);
            }
        }
    }
}

/// A network of this topology, as text, with about this many imports, and its first and last module.
pub fn network_of(
    alloc: Global,
    seed: u64,
    topology: Topology,
    modules: u64,
    imports: u64,
) -> Result<Vec<u8>, AllocError> {
    let mut gathered = Gathered {
        random: Random::new(seed),
        last: (modules % 65536).saturating_sub(1),
        imports: Vec::new(alloc),
    };
    match topology {
        Topology::Banded => gathered.banded(imports, 0)?,
        Topology::Zeros => gathered.banded(imports, 5)?,
        Topology::Layered => gathered.layered(imports, modules / 45 + 1)?,
        Topology::Powerlaw => gathered.powerlaw(imports)?,
        Topology::Chain => gathered.chain(imports)?,
        Topology::Wide => gathered.wide(imports)?,
        Topology::Grid => gathered.grid(imports, modules / 90 + 4)?,
    }
    gathered.dedup_and_shuffle();
    text_of(alloc, modules, gathered.imports.as_slice())
}

fn text_of(alloc: Global, modules: u64, imports: &[(u64, u64)]) -> Result<Vec<u8>, AllocError> {
    let mut text = Vec::new(alloc);
    for module in 0..modules {
        text.extend_from_slice(b"module ")?;
        text.extend_from_slice(name_of(module).as_slice())?;
        text.extend_from_slice(b"\n")?;
    }
    for import in imports {
        let (ends, weight) = *import;
        text.extend_from_slice(b"import ")?;
        text.extend_from_slice(name_of(ends / 65536).as_slice())?;
        text.extend_from_slice(b" ")?;
        text.extend_from_slice(name_of(ends % 65536).as_slice())?;
        text.extend_from_slice(b" ")?;
        push_number(&mut text, weight)?;
        text.extend_from_slice(b"\n")?;
    }
    Ok(text)
}
