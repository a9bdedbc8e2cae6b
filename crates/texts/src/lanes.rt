//! Tests of sixteen bytes at once, each of which returns the length of the prefix that passes the test.
ghost use Rattle.std.specs.Prelude.{◌≡◌, ◌+◌, ◌≤◌, ◌==◌, if◌then◌else◌, length, take, drop};
ghost use Rattle.std.specs.Char.{is_ascii_alphanumeric};
ghost use Rattle.std.specs.Int.{trailing_zeros, w64};
ghost use Rattle.std.specs.List.{prefix_len};

use std::simd::prelude::*;

/// The number of bytes that are tested at once.
pub const LANES: usize = 16;

/// The number of lanes before the first one whose bit is set, or 16 if no bit is.
#[inline(always)]
pub fn lanes_before_bit(bits: u64) -> usize
    // The number of trailing zeros, or 16 for 0.
    ensures { result ≡ (if bits == 0 then 16 else trailing_zeros w64 bits) }
{
    if bits == 0 {
        LANES
    } else {
        bits.trailing_zeros() as usize
    }
}

/// The number of letters and digits before the first other byte, of the first sixteen bytes.
#[inline(always)]
pub(crate) fn count_alnum_lanes(bytes: &[u8]) -> usize
    requires { 16 ≤ length bytes.now }
    ensures { result ≡ prefix_len is_ascii_alphanumeric (take 16 bytes.now) }
{
    let lanes = u8x16::from_slice(bytes);
    let between = lanes.simd_gt(u8x16::splat(b'9')) & lanes.simd_lt(u8x16::splat(b'A'));
    let among = lanes.simd_gt(u8x16::splat(b'Z')) & lanes.simd_lt(u8x16::splat(b'a'));
    let outside = lanes.simd_lt(u8x16::splat(b'0')) | lanes.simd_gt(u8x16::splat(b'z'));
    lanes_before_bit((between | among | outside).to_bitmask())
}
