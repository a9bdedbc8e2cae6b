//! Varints (Protocol Buffers encoding, "Base 128 Varints"): groups of seven bits, least significant first.
ghost use Rattle.std.specs.Prelude.{◌≡◌, ◌<◌, ◌%◌, ◌++◌, ℕ, IfOk, IfSome, Ok, OnOk, length};
ghost use Rattle.proto_wire.specs.Faults.{Matches};
ghost use Rattle.proto_wire.specs.Varints.{varint, varint_in};

use crate::fault::WireFault;
use std::alloc::AllocError;

/// Reads a varint of at most `most` bytes, with one recursive call for each byte. Returns its number with the remaining bytes.
#[tactic(auto, unfolding(crate::specs::Varints::varint_in))]
fn read_varint_bytewise(most: u8, at: usize, bytes: &[u8]) -> Result<(u64, &[u8]), WireFault>
    ensures value { Matches (λ x. (x.0, x.1.now)) result (varint_in most at bytes.now) }
    ensures shorter { IfOk result (λ x. length x.1.now < length bytes.now) }
{
    if most == 0 {
        return Err(WireFault::LongVarint { at });
    }
    match bytes {
        [] => Err(WireFault::Truncated { at }),
        [last, rest @ ..] if *last < 128 => Ok((u64::from(*last), rest)),
        [low_bits, rest @ ..] => {
            let (high, rest) = read_varint_bytewise(most - 1, at, rest)?;
            Ok((u64::from(*low_bits % 128) + 128 * (high % (1 << 57)), rest))
        }
    }
}

/// The value of the lowest seven bits of a byte.
fn low_bits(byte: u8) -> u64
    ensures exact { result ≡ byte % 128 }
    ensures few { result < 128 }
{
    u64::from(byte % 128)
}

/// Reads a varint of at most five bytes without a call for each byte. Returns its number with the remaining bytes; `None` for any other
/// varint.
#[inline(always)]
#[tactic(auto, unfolding(crate::specs::Varints::varint_in))]
fn read_short_varint(bytes: &[u8]) -> Option<(u64, &[u8])>
    ensures five { IfSome result (λ x. (at : ℕ) → varint_in 5 at bytes.now ≡ Ok (x.0, x.1.now)) }
    ensures ten { IfSome result (λ x. (at : ℕ) → varint_in 10 at bytes.now ≡ Ok (x.0, x.1.now)) }
    ensures shorter { IfSome result (λ x. length x.1.now < length bytes.now) }
{
    match bytes {
        [a, rest @ ..] if *a < 128 => Some((low_bits(*a), rest)),
        [a, b, rest @ ..] if *b < 128 => Some((low_bits(*a) + (low_bits(*b) << 7), rest)),
        [a, b, c, rest @ ..] if *c < 128 => {
            Some((
                low_bits(*a) + (low_bits(*b) << 7) + (low_bits(*c) << 14),
                rest,
            ))
        }
        [a, b, c, d, rest @ ..] if *d < 128 => Some((
            low_bits(*a) + (low_bits(*b) << 7) + (low_bits(*c) << 14) + (low_bits(*d) << 21),
            rest,
        )),
        [a, b, c, d, e, rest @ ..] if *e < 128 => Some((
            low_bits(*a)
                + (low_bits(*b) << 7)
                + (low_bits(*c) << 14)
                + (low_bits(*d) << 21)
                + (low_bits(*e) << 28),
            rest,
        )),
        _ => None,
    }
}

/// Reads the last bytes of a long varint, at most five, as a varint of their own. Returns its number with the remaining bytes.
fn read_varint_tail(at: usize, bytes: &[u8]) -> Result<(u64, &[u8]), WireFault>
    ensures value { Matches (λ x. (x.0, x.1.now)) result (varint_in 5 at bytes.now) }
    ensures shorter { IfOk result (λ x. length x.1.now < length bytes.now) }
{
    match read_short_varint(bytes) {
        Some(found) => Ok(found),
        None => read_varint_bytewise(5, at, bytes),
    }
}

/// Reads a varint of at most ten bytes. If its first five bytes have the continuation bit, they are read at once. Returns its number with
/// the remaining bytes.
fn read_long_varint(at: usize, bytes: &[u8]) -> Result<(u64, &[u8]), WireFault>
    ensures value { Matches (λ x. (x.0, x.1.now)) result (varint_in 10 at bytes.now) }
    ensures shorter { IfOk result (λ x. length x.1.now < length bytes.now) }
{
    match bytes {
        [a, b, c, d, e, rest @ ..]
            if *a >= 128 && *b >= 128 && *c >= 128 && *d >= 128 && *e >= 128 => {
            let (high, rest) = read_varint_tail(at, rest)?;
            let number = low_bits(*a)
                + (low_bits(*b) << 7)
                + (low_bits(*c) << 14)
                + (low_bits(*d) << 21)
                + (low_bits(*e) << 28);
            Ok((number + ((high % (1 << 29)) << 35), rest))
        }
        _ => read_varint_bytewise(10, at, bytes),
    }
}

/// Reads a varint of at most ten bytes, faster than `read_varint_bytewise`, which calls itself for each byte. Returns its number with the
/// remaining bytes.
#[inline(never)]
fn read_general_varint(at: usize, bytes: &[u8]) -> Result<(u64, &[u8]), WireFault>
    ensures value { Matches (λ x. (x.0, x.1.now)) result (varint_in 10 at bytes.now) }
    ensures shorter { IfOk result (λ x. length x.1.now < length bytes.now) }
{
    match read_short_varint(bytes) {
        Some(found) => Ok(found),
        None => read_long_varint(at, bytes),
    }
}

/// Reads a varint of at most ten bytes (Protocol Buffers encoding, "Base 128 Varints"). Returns its number modulo 2^64 with the remaining
/// bytes.
/// Fails with `Truncated` or `LongVarint`, with the offset `at`. Varints of one or two bytes, the most frequent ones, need no further call.
#[tactic(auto, unfolding(crate::specs::Varints::varint_in))]
pub(crate) fn read_varint(at: usize, bytes: &[u8]) -> Result<(u64, &[u8]), WireFault>
    ensures value { Matches (λ x. (x.0, x.1.now)) result (varint_in 10 at bytes.now) }
    ensures shorter { IfOk result (λ x. length x.1.now < length bytes.now) }
{
    match bytes {
        [only, rest @ ..] if *only < 128 => Ok((u64::from(*only), rest)),
        [low_bits, high, rest @ ..] if *high < 128 => {
            Ok((u64::from(*low_bits % 128) + 128 * u64::from(*high), rest))
        }
        _ => read_general_varint(at, bytes),
    }
}

/// Appends a number as its minimal varint (Protocol Buffers encoding, "Base 128 Varints").
/// Fails with `AllocError` if an allocation fails; a prefix of the varint may then have been appended.
pub fn append_varint(out: &mut Vec<u8>, number: u64) -> Result<(), AllocError>
    // With `Ok` exactly the minimal varint of the number is appended.
    ensures { OnOk result (out.new.items ≡ out.old.items ++ varint number) }
{
    let mut rest = number;
    while rest >= 128 {
        out.push((rest % 128) as u8 + 128)?;
        rest /= 128;
    }
    out.push(rest as u8)?;
    Ok(())
}
