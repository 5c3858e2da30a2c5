//! The sending side.

use delay_line::{LineBank, Stage};
use isdbt_base::{Mode, NoMemory, carriers};
use std::alloc::Global;
use std::marker::Model;

/// Time interleaver of one segment with interleaving length `I` symbols, at most 16: the cell of carrier i is late by
/// `I` * (5 * i mod 96) symbols. An item is a cell's bits.
///
/// Contracts see what each carrier's path holds, the next to go out first.
#[derive(Drop)]
pub struct TimeInter<const I: usize> {
    bank: LineBank<u8>,
}

impl<const I: usize> Model for TimeInter<I> {
    ghost use Rattle.std.specs.Prelude.{ℕ, List, ◌<◌, ◌≤◌, length};
    ghost use Rattle.delay_line.specs.Stages.{IsBankOf};
    ghost use Rattle.time_inter.specs.Layouts.{inter_layout, IsSegmentStage};

    ghost Value = { List (List ℕ) };

    ghost view = { λ s. s.bank };

    ghost invariant = { λ s. IsSegmentStage I (length s.bank) × IsBankOf (inter_layout I (length s.bank)) s.bank };
}

impl<const I: usize> TimeInter<I> {
    ghost use Rattle.std.specs.Prelude.{◌≡◌, ◌≤◌, [], IfOk};
    ghost use Rattle.isdbt_base.specs.Numbers.{carriers};
    ghost use Rattle.delay_line.specs.Stages.{StandsFor, new_bank};
    ghost use Rattle.time_inter.specs.Layouts.{inter_layout};

    /// An interleaver for the mode's carriers, whose paths hold zeros. Fails only if memory runs out.
    pub fn open(alloc: Global, mode: Mode) -> Result<Self, NoMemory>
        requires { I ≤ 16 }
        ensures zeros { IfOk result (λ stage. stage ≡ new_bank (inter_layout I (carriers mode))) }
        ensures layout { IfOk result (λ stage. ⟦<TimeInter<I> as Stage>⟧.layout stage ≡ inter_layout I (carriers mode)) }
        ensures stands { IfOk result (λ stage. StandsFor (inter_layout I (carriers mode)) (⟦<TimeInter<I> as Stage>⟧.held stage) []) }
    {
        let mut bank = LineBank::new(alloc);
        for carrier in 0..carriers(mode) {
            bank.add(alloc, I as u32 * (5 * carrier % 96), 0)?;
        }
        Ok(TimeInter { bank })
    }
}

impl<const I: usize> Stage for TimeInter<I> {
    type Item = u8;

    ghost use Rattle.std.specs.Prelude.{[], slice_index_or, length};
    ghost use Rattle.time_inter.specs.Layouts.{inter_layout};

    ghost layout = { λ s. inter_layout I (length s) };

    ghost held = { λ s i. slice_index_or s i [] };

    fn delay(&self) -> u32 {
        let _ = &self.bank;
        I as u32 * 95
    }

    fn zero(&self) -> u8 {
        0
    }

    fn paths(&self) -> u32 {
        self.bank.paths() as u32
    }

    fn path_delay(&self, path: u32) -> u32 {
        let _ = &self.bank;
        I as u32 * (5 * path % 96)
    }

    fn feed(&mut self, input: &[u8], output: &mut [u8]) {
        self.bank.feed(input, output);
    }
}
