//! A SIMD test of sixteen bytes for line ends.
ghost use Rattle.std.specs.Prelude.{◌≡◌, ◌+◌, ◌≤◌, length, take, drop};
ghost use Rattle.std.specs.List.{prefix_len};
ghost use Rattle.ob_scan.specs.Lexemes.{ends_no_line};

use std::simd::prelude::*;
use texts::lanes::lanes_before_bit;

/// The number of bytes before the first LF or CR, of the sixteen from `at` on.
#[inline(always)]
pub(crate) fn lanes_before_line_end(bytes: &[u8], at: usize) -> usize
    requires { at + 16 ≤ length bytes.now }
    ensures { result ≡ prefix_len ends_no_line (take 16 (drop at bytes.now)) }
{
    let lanes = u8x16::from_slice(&bytes[at..]);
    let ends = lanes.simd_eq(u8x16::splat(b'\n')) | lanes.simd_eq(u8x16::splat(b'\r'));
    lanes_before_bit(ends.to_bitmask())
}
