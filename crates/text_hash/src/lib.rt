//! Names as keys of hash tables, and seeds that defend large tables against hash flooding: the author of a file chooses its names, and
//! could choose names that collide.
//! Depends on std alone. The digest of a file is the SipHash-1-3 of a state that each word of the file has changed.
//! Main call: `Seed::for_keys`. A small table gets one fixed seed, a large one a seed made from the digest of its file; how well names
//! spread is measured, not proved.
#![tactic(auto)]

mod digest;
mod name;
mod seed;

pub use name::Name;
pub use seed::Seed;
