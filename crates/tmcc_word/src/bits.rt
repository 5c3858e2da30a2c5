//! Numbers and their bits in a word.

ghost use Rattle.std.specs.Prelude.{◌≡◌, ◌+◌, ◌^◌, ◌<◌, ◌≤◌, ◌++◌, length, take};
ghost use Rattle.isdbt_base.specs.Bits.{number_bits};
ghost use Rattle.tmcc_word.specs.Reading.{field};

/// Puts the lowest `width` bits of a number behind the first `at` bits, the highest first, and says where they end.
pub fn put_number(word: &mut [bool], at: usize, width: usize, number: u128) -> usize
    requires width { width ≤ 128 }
    requires room { at + width ≤ length word.old }
    ensures end { result ≡ at + width }
    ensures bits { take result word.new ≡ take at word.old ++ number_bits width number }
{
    for bit in 0..width {
        word[at + bit] = number >> (width - 1 - bit) & 1 == 1;
    }
    at + width
}

/// The number that `width` bits spell from bit `at` on, the highest first.
pub fn number_at(word: &[bool], at: usize, width: usize) -> u32
    requires width { width ≤ 16 }
    requires room { at + width ≤ length word.now }
    ensures value { result ≡ field word.now at width }
    ensures most { result < 2 ^ width }
{
    let mut number: u32 = 0;
    for bit in &word[at..at + width] {
        number = 2 * number + u32::from(*bit);
    }
    number
}
