//! The digest of a text, at about one instruction per byte; std's own hash takes several. The state has four pairs of 64-bit halves. Each
//! word of eight bytes changes both halves of one pair, by two different operations; their product changes the pair used before.
//! A word has 64 bits and a pair 128, so no single word determines a pair. At the end std hashes the length, the bytes after the last
//! block of 32 and the pairs (SipHash-1-3; Aumasson and Bernstein 2012).
ghost use Rattle.std.specs.Prelude.{◌≡◌, ◌-◌, ◌*◌, ◌/◌, ◌^◌, bit_and, fold};
ghost use Rattle.text_hash.specs.Digest.{digest, first_state, absorb_block, absorb_word};

use std::hash::{DefaultHasher, Hasher};

/// The lower seven bits of each byte: names are ASCII, and differ in these bits alone. A word that an attacker computes as the solution of
/// an equation seldom has no other bits.
const SEVEN_BITS: u64 = 0x7F7F_7F7F_7F7F_7F7F;

/// A quarter of the state. A word changes both halves of one pair.
#[derive(Clone, Copy)]
struct Pair {
    left: u64,
    right: u64,
}

/// The state of the digest: four pairs, in the order in which the next words change them.
#[derive(Clone, Copy)]
pub(crate) struct State {
    first: Pair,
    second: Pair,
    third: Pair,
    fourth: Pair,
}

/// The low and the high 64 bits of the product.
fn product(left: u64, right: u64) -> (u64, u64)
    ensures low { result.0 ≡ bit_and (left * right) (2 ^ 64 - 1) }
    ensures high { result.1 ≡ left * right / 2 ^ 64 }
{
    let product = left as u128 * right as u128;
    (
        (product & 0xFFFF_FFFF_FFFF_FFFF) as u64,
        (product >> 64) as u64,
    )
}

impl State {
    /// The state before the first word.
    fn new() -> State
        ensures { result ≡ first_state }
    {
        State {
            first: Pair {
                left: 0x243f_6a88_85a3_08d3,
                right: 0x1319_8a2e_0370_7344,
            },
            second: Pair {
                left: 0xa409_3822_299f_31d0,
                right: 0x082e_fa98_ec4e_6c89,
            },
            third: Pair {
                left: 0x4528_21e6_38d0_1377,
                right: 0xbe54_66cf_34e9_0c6c,
            },
            fourth: Pair {
                left: 0xc0ac_29b7_c97c_50dd,
                right: 0x3f84_d5b5_b547_0917,
            },
        }
    }

    /// The state after one more word.
    fn absorb_word(self, word: u64) -> State
        ensures { result ≡ absorb_word self word }
    {
        let word = word & SEVEN_BITS;
        let left = self.first.left ^ word;
        let right = self.first.right.wrapping_sub(word);
        let (low, high) = product(left, right);
        State {
            first: self.second,
            second: self.third,
            third: Pair {
                left: self.fourth.left.wrapping_sub(low),
                right: self.fourth.right.wrapping_sub(high),
            },
            fourth: Pair { left, right },
        }
    }

    /// The state after the four words of a block. Each word rotates the pairs by one position, so a block leaves them in their order.
    fn absorb_block(self, block: &[u8; 32]) -> State
        ensures { result ≡ absorb_block self block.now }
    {
        let (words, _) = block.as_chunks::<8>();
        self.absorb_word(u64::from_le_bytes(words[0]))
            .absorb_word(u64::from_le_bytes(words[1]))
            .absorb_word(u64::from_le_bytes(words[2]))
            .absorb_word(u64::from_le_bytes(words[3]))
    }

    /// The state after these blocks of 32 bytes.
    #[inline(never)]
    fn from_blocks(blocks: &[[u8; 32]]) -> State
        ensures { result ≡ fold absorb_block first_state blocks.now }
    {
        let mut state = State::new();
        for block in blocks {
            state = state.absorb_block(block);
        }
        state
    }
}

/// The digest of a text: 64 bits that depend on each of its bytes.
pub(crate) fn digest(text: &[u8]) -> u64
    ensures { result ≡ digest text.now }
{
    let (blocks, rest) = text.as_chunks::<32>();
    let state = State::from_blocks(blocks);
    let mut hasher = DefaultHasher::new();
    hasher.write_usize(text.len());
    hasher.write(rest);
    hasher.write_u64(state.first.left);
    hasher.write_u64(state.first.right);
    hasher.write_u64(state.second.left);
    hasher.write_u64(state.second.right);
    hasher.write_u64(state.third.left);
    hasher.write_u64(state.third.right);
    hasher.write_u64(state.fourth.left);
    hasher.write_u64(state.fourth.right);
    hasher.finish()
}
