//! Laws of words and their parity.

ghost use Rattle.std.specs.Prelude.{◌≡◌, Bool, List, ◌++◌, length, drop, slice_range, Ok, ◌↔◌};
ghost use Rattle.isdbt_base.specs.Bits.{bits_number};
ghost use Rattle.tmcc_word.specs.Fields.{TmccFields, FitsWord};
ghost use Rattle.tmcc_word.specs.CyclicCode.{IsCodeword, remainder, parity_of, bit_sum};
ghost use Rattle.tmcc_word.specs.Words.{information_bits, word_of};
ghost use Rattle.tmcc_word.specs.Reading.{read, info_at};

/// A record that a word can bear has a word of 204 bits, which reads as the record and whether the frame is odd, and of
/// which the bits from B20 on are a codeword.
pub fn word_law()
    ensures size { (i : TmccFields) (odd : Bool) → length (word_of i odd) ≡ 204 }
    ensures codeword { (i : TmccFields) (odd : Bool) → IsCodeword (drop 20 (word_of i odd)) }
    ensures reads { (i : TmccFields) (odd : Bool) → FitsWord i → read (word_of i odd) ≡ Ok (i, odd) }
{}

/// What is read of a word is a record that a word can bear.
pub fn reading_law()
    ensures { (word : List Bool) (i : TmccFields × Bool) → read word ≡ Ok i → FitsWord i.0 }
{}

/// Bits B20 to B121 of a word are its information, which reads as the record; what is read of 102 bits is a record that a
/// word can bear.
pub fn info_law()
    ensures size { (i : TmccFields) → length (information_bits i) ≡ 102 }
    ensures part { (i : TmccFields) (odd : Bool) → slice_range (word_of i odd) 20 122 ≡ information_bits i }
    ensures reads { (i : TmccFields) → FitsWord i → info_at (information_bits i) 0 ≡ Ok i }
    ensures fits { (bits : List Bool) (i : TmccFields) → info_at bits 0 ≡ Ok i → FitsWord i }
{}

/// Codewords are the bits that leave no remainder; the sum of two is one; 102 bits and their parity are one; and no other
/// 82 bits behind the 102 make one.
pub fn parity_law()
    ensures test { (bits : List Bool) → (IsCodeword bits ↔ (remainder 102 (bits_number bits) ≡ 0)) }
    ensures sums { (xs ys : List Bool) → length xs ≡ 184 → length ys ≡ 184 → IsCodeword xs → IsCodeword ys → IsCodeword (bit_sum xs ys) }
    ensures fits { (bits : List Bool) → length bits ≡ 102 → IsCodeword (bits ++ parity_of bits) }
    ensures only { (bits rest : List Bool) → length bits ≡ 102 → length rest ≡ 82 → IsCodeword (bits ++ rest) → rest ≡ parity_of bits }
{}
