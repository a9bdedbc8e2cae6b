//! Pseudorandom numbers, and names made from numbers. Equal seeds give equal numbers.
ghost use Rattle.std.specs.Prelude.{◌<◌};

use std::alloc::AllocError;

/// A xorshift generator (Marsaglia 2003).
#[derive(Drop)]
pub struct Random {
    state: u64,
}

impl Random {
    pub fn new(seed: u64) -> Random {
        let spread = seed.wrapping_mul(0x9E37_79B9_7F4A_7C15) ^ 0x1066_89D4_5497_FDB5;
        Random { state: spread | 1 }
    }

    fn next(&mut self) -> u64 {
        let mut state = self.state;
        state ^= state << 13;
        state ^= state >> 7;
        state ^= state << 17;
        self.state = state;
        state
    }

    /// A random number below the limit.
    pub fn below(&mut self, limit: u64) -> u64
        // The limit is positive.
        requires { 0 < limit }
        // The result is below the limit.
        ensures { result < limit }
    {
        (self.next() >> 11) % limit
    }

    /// One of the elements, at random.
    pub fn pick(&mut self, texts: &[&'static [u8]]) -> &'static [u8] {
        if texts.is_empty() {
            return b"";
        }
        let at = self.below(texts.len() as u64);
        texts[at as usize]
    }
}

const CAPITALS: &[u8; 16] = b"BDFGHKLMNPRSTVWZ";

const CONSONANTS: &[u8; 16] = b"bdfghklmnprstvwz";

const VOWELS: &[u8; 5] = b"aeiou";

/// A name of six letters, a different one for each number below 512,000. The order of names doesn't follow that of numbers.
pub fn name_of(number: u64) -> [u8; 6] {
    let first = (number % 512_000) * 331_337 % 512_000;
    let (second, third) = (first / 80, first / 6400);
    [
        CAPITALS[(first % 16) as usize],
        VOWELS[(first / 16 % 5) as usize],
        CONSONANTS[(second % 16) as usize],
        VOWELS[(second / 16 % 5) as usize],
        CONSONANTS[(third % 16) as usize],
        VOWELS[(third / 16 % 5) as usize],
    ]
}

/// Appends a number in decimal digits.
pub fn push_number(text: &mut Vec<u8>, number: u64) -> Result<(), AllocError> {
    if number < 10 {
        text.push(b'0' + number as u8)?;
        return Ok(());
    }
    if number < 100 {
        text.push(b'0' + (number / 10) as u8)?;
        text.push(b'0' + (number % 10) as u8)?;
        return Ok(());
    }
    let digits = number.to_string(*text.allocator())?;
    text.extend_from_slice(digits.as_bytes())
}
