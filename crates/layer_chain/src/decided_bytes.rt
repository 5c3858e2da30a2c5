//! The decided bytes of one layer.

ghost use Rattle.std.specs.Prelude.{◌≡◌, ℕ, ◌+◌, ◌*◌, ◌%◌, ◌<◌, ◌≤◌, false, length, slice_index, slice_index_or, vec_len};
ghost use Rattle.energy_prbs.specs.Sequence.{byte_of_bits};
ghost use Rattle.isdbt_base.specs.Numbers.{rate_bits};
ghost use Rattle.viterbi_hard.specs.StandsFor.{steps_in};

use isdbt_base::{NoMemory, Rate, rate_pair};
use std::alloc::Global;
use viterbi_hard::Decoder;

/// Eight bits as a byte, the first the highest.
fn byte_of(bits: &[bool]) -> u8
    requires { length bits.now ≡ 8 }
    ensures { result ≡ byte_of_bits (λ i. slice_index_or bits.now i false) }
{
    let high = 8 * u8::from(bits[0])
        + 4 * u8::from(bits[1])
        + 2 * u8::from(bits[2])
        + u8::from(bits[3]);
    let low = 8 * u8::from(bits[4])
        + 4 * u8::from(bits[5])
        + 2 * u8::from(bits[6])
        + u8::from(bits[7]);
    16 * high + low
}

/// Packs bits into bytes, eight each.
fn pack(bits: &[bool], bytes: &mut [u8])
    requires { length bits.now ≡ 8 * length bytes.old }
    ensures { (k : ℕ) → k < length bytes.new → slice_index bytes.new k ≡ byte_of_bits (λ i. slice_index_or bits.now (8 * k + i) false) }
{
    for k in 0..bytes.len() {
        bytes[k] = byte_of(&bits[8 * k..8 * k + 8]);
    }
}

/// The inner decoder of one layer for one epoch, and the bytes of its decided bits, of two frames at most.
///
/// All memory is taken at `open`.
#[derive(Drop)]
pub struct DecidedBytes {
    decoder: Decoder,
    /// Read bits of a symbol.
    symbol_bits: usize,
    /// Bytes of a frame.
    frame: usize,
    /// Decided bits that fill no byte yet, at the front, and room for those of a symbol behind them.
    bits: Vec<bool>,
    pending: usize,
    /// Decided bytes that are not taken yet, at the front.
    bytes: Vec<u8>,
    filled: usize,
    ghost whole: { symbol_bits % rate_bits decoder.rate ≡ 0 },
    ghost few_pending: { pending < 8 },
    ghost bit_room: { vec_len bits ≡ 8 + steps_in decoder.rate symbol_bits },
    ghost byte_room: { vec_len bytes ≡ 2 * frame },
    ghost few_filled: { filled ≤ 2 * frame },
}

impl DecidedBytes {
    ghost use Rattle.std.specs.Prelude.{◌≡◌, ℕ, ◌+◌, ◌-◌, ◌*◌, ◌%◌, ◌<◌, ◌≤◌, ◌^◌, Bool, true, false, length, slice_index_or, IfOk};
    ghost use Rattle.viterbi_hard.specs.StandsFor.{GoesOn, steps_in};
    ghost use Rattle.layer_chain.specs.DecidedBytes.{rate_of, bits_of_symbol, steps_of_symbol, frame_of, decided_byte, StandsFor};

    /// The decoder that has read nothing, for so many read bits a symbol, whole puncturing patterns, and so many bytes a
    /// frame. Fails only if memory runs out.
    pub fn open(
        alloc: Global,
        rate: Rate,
        symbol_bits: usize,
        frame: usize,
    ) -> Result<DecidedBytes, NoMemory>
        requires whole { symbol_bits % rate_bits rate ≡ 0 }
        requires few { symbol_bits ≤ 2 ^ 20 }
        requires small { frame ≤ 2 ^ 30 }
        ensures rate { IfOk result (λ s. rate_of s ≡ rate) }
        ensures bits { IfOk result (λ s. bits_of_symbol s ≡ symbol_bits) }
        ensures frame { IfOk result (λ s. frame_of s ≡ frame) }
        ensures state { IfOk result (λ s. (read : ℕ → Bool) → StandsFor s read 0 0) }
    {
        let (steps, sent) = rate_pair(rate);
        let symbol_steps = symbol_bits / sent as usize * steps as usize;
        let bits = vec![in alloc; false; 8 + symbol_steps]?;
        let bytes = vec![in alloc; 0; 2 * frame]?;
        Ok(DecidedBytes {
            decoder: Decoder::start(rate),
            symbol_bits,
            frame,
            bits,
            pending: 0,
            bytes,
            filled: 0,
        })
    }

    /// Feeds the decoder the read bits of a symbol, and keeps the bytes that are decided as far as there is room for them.
    pub fn symbol(&mut self, read: &[bool])
        requires { length read.now ≡ bits_of_symbol self.old }
        ensures state { (bits : ℕ → Bool) (steps first : ℕ) → StandsFor self.old bits steps first → GoesOn (rate_of self.old) bits steps read.now
            → steps + steps_of_symbol self.old ≤ 8 * (first + 2 * frame_of self.old) + 127 → StandsFor self.new bits (steps + steps_of_symbol self.old) first }
        ensures rate { rate_of self.new ≡ rate_of self.old }
        ensures bits { bits_of_symbol self.new ≡ bits_of_symbol self.old }
        ensures frame { frame_of self.new ≡ frame_of self.old }
    {
        let count = self.decoder.feed(read, &mut self.bits[self.pending..]);
        let held = self.pending + count;
        let whole = (held / 8).min(self.bytes.len() - self.filled);
        let end = self.filled + whole;
        pack(&self.bits[..8 * whole], &mut self.bytes[self.filled..end]);
        self.filled = end;
        self.bits.copy_within(held - held % 8..held, 0);
        self.pending = held % 8;
    }

    /// The same where the symbol bears coded bits, and else nothing.
    pub fn symbol_if(&mut self, bears_bits: bool, read: &[bool])
        requires { length read.now ≡ bits_of_symbol self.old }
        ensures fed { bears_bits ≡ true → (bits : ℕ → Bool) (steps first : ℕ) → StandsFor self.old bits steps first → GoesOn (rate_of self.old) bits steps read.now
            → steps + steps_of_symbol self.old ≤ 8 * (first + 2 * frame_of self.old) + 127 → StandsFor self.new bits (steps + steps_of_symbol self.old) first }
        ensures passed { bears_bits ≡ false → (bits : ℕ → Bool) (steps first : ℕ) → StandsFor self.old bits steps first → StandsFor self.new bits steps first }
        ensures rate { rate_of self.new ≡ rate_of self.old }
        ensures bits { bits_of_symbol self.new ≡ bits_of_symbol self.old }
        ensures frame { frame_of self.new ≡ frame_of self.old }
    {
        if bears_bits {
            self.symbol(read);
        }
    }

    /// The bytes of a frame, the first that are not taken yet.
    pub fn frame(&self) -> &[u8]
        ensures size { length result.now ≡ frame_of self.now }
        ensures bytes { (read : ℕ → Bool) (steps first : ℕ) → StandsFor self.now read steps first → 8 * (first + frame_of self.now) + 127 ≤ steps
            → (i : ℕ) → i < frame_of self.now → slice_index_or result.now i 0 ≡ decided_byte (rate_of self.now) read (first + i) }
    {
        &self.bytes[..self.frame]
    }

    /// Takes the bytes of that frame away.
    pub fn take_frame(&mut self)
        ensures state { (read : ℕ → Bool) (steps first : ℕ) → StandsFor self.old read steps first → 8 * (first + frame_of self.old) + 127 ≤ steps → StandsFor self.new read steps (first + frame_of self.old) }
        ensures rate { rate_of self.new ≡ rate_of self.old }
        ensures bits { bits_of_symbol self.new ≡ bits_of_symbol self.old }
        ensures frame { frame_of self.new ≡ frame_of self.old }
    {
        self.bytes.copy_within(self.frame.., 0);
        self.filled = self.filled.saturating_sub(self.frame);
    }
}
