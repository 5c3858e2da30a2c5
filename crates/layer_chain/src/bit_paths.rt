//! Bit adjustment and interleaving, on the numbers of cells.

ghost use Rattle.std.specs.Prelude.{◌≡◌, ℕ, ◌+◌, ◌*◌, ◌<◌, length, slice_index};
ghost use Rattle.std.specs.Int.{bit_at};

use delay_line::Line;
use isdbt_base::{Modulation, NoMemory, bits_per_cell};
use std::alloc::Global;

/// Bit adjustment and interleaving of a layer. The numbers of its cells come in and go out, each bit of a number as many
/// cells late as the adjustment and the bit's own delay are together.
///
/// There is a line for each bit of a cell. It holds the numbers whose bit is still to go out.
#[derive(Drop)]
pub struct BitPaths {
    pub lines: Vec<Line<u8>>,
    /// The numbers that a line gives.
    pub late: Vec<u8>,
}

/// Makes each number 0.
fn clear(numbers: &mut [u8])
    ensures { (k : ℕ) → slice_index numbers.new k ≡ 0 }
{
    for number in numbers.iter_mut() {
        *number = 0;
    }
}

/// Puts one bit more behind the bits of each number: the bit at a place of another number.
fn add_bits(numbers: &mut [u8], others: &[u8], place: usize)
    requires lengths { length others.now ≡ length numbers.old }
    requires place { place < 8 }
    requires small { (k : ℕ) → k < length numbers.old → slice_index numbers.old k < 128 }
    ensures { (k : ℕ) → k < length numbers.new → slice_index numbers.new k ≡ 2 * slice_index numbers.old k + bit_at (slice_index others.now k) place }
{
    for k in 0..numbers.len() {
        numbers[k] = 2 * numbers[k] + ((others[k] >> place) & 1);
    }
}

impl BitPaths {
    ghost use Rattle.std.specs.Prelude.{◌≡◌, ℕ, List, ◌+◌, ◌<◌, ◌≤◌, [], ◌++◌, length, slice_index, vec_len, IfOk};
    ghost use Rattle.isdbt_base.specs.Numbers.{cell_bits};
    ghost use Rattle.delay_line.specs.Lines.{item_of};
    ghost use Rattle.layer_chain.specs.BitPaths.{lines_of, path_delay, late_number, StandsFor};

    /// Lines that hold zeros, for a layer with so many cells in a symbol, and for so many numbers at once. Fails only if
    /// memory runs out.
    pub fn open(
        alloc: Global,
        modulation: Modulation,
        cells: u32,
        size: usize,
    ) -> Result<BitPaths, NoMemory>
        requires least { 60 ≤ cells }
        requires most { cells ≤ 4992 }
        ensures paths { IfOk result (λ s. length (lines_of s) ≡ cell_bits modulation) }
        ensures size { IfOk result (λ s. vec_len s.late ≡ size) }
        ensures stands { IfOk result (λ s. StandsFor (path_delay (cell_bits modulation) cells) (lines_of s) []) }
    {
        let width = bits_per_cell(modulation);
        let mut lines = Vec::new(alloc);
        for bit in 0..width {
            let delay = 2 * cells - 120 + 120 * bit / (width - 1);
            let line = Line::open(alloc, delay, 0)?;
            lines.push(line)?;
        }
        let late = vec![in alloc; 0; size]?;
        Ok(BitPaths { lines, late })
    }

    /// Takes numbers in, as many as it was opened for, and writes those that go out for them.
    pub fn feed(&mut self, input: &[u8], output: &mut [u8])
        requires paths { length (lines_of self.old) ≤ 6 }
        requires room { length input.now ≡ vec_len self.old.late }
        requires lengths { length output.old ≡ length input.now }
        ensures given { (delay : ℕ → ℕ) (h : List ℕ) → StandsFor delay (lines_of self.old) h
            → (k : ℕ) → k < length input.now → slice_index output.new k ≡ late_number (length (lines_of self.old)) delay (item_of 0 (h ++ input.now)) (length h + k) }
        ensures state { (delay : ℕ → ℕ) (h : List ℕ) → StandsFor delay (lines_of self.old) h → StandsFor delay (lines_of self.new) (h ++ input.now) }
        ensures paths { length (lines_of self.new) ≡ length (lines_of self.old) }
        ensures size { vec_len self.new.late ≡ vec_len self.old.late }
    {
        clear(output);
        let width = self.lines.len();
        for bit in 0..width {
            self.lines[bit].feed(input, &mut self.late);
            add_bits(output, &self.late, width - 1 - bit);
        }
    }
}
