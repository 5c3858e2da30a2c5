//! The receiving side.

use delay_line::{LineBank, Stage};
use isdbt_base::NoMemory;
use std::alloc::Global;
use std::marker::Model;

/// Bit deinterleaver for cells of `V` bits, 2, 4 or 6: bit r of a cell is late by 120 less 120 * r / (`V` - 1)
/// cells.
///
/// Contracts see what each path holds, the next to go out first.
#[derive(Drop)]
pub struct BitDeinter<const V: usize> {
    bank: LineBank<bool>,
}

impl<const V: usize> Model for BitDeinter<V> {
    ghost use Rattle.std.specs.Prelude.{Bool, List};
    ghost use Rattle.delay_line.specs.Stages.{IsBankOf};
    ghost use Rattle.bit_inter.specs.Layouts.{deinter_layout, IsCellWidth};

    ghost Value = { List (List Bool) };

    ghost view = { λ s. s.bank };

    ghost invariant = { λ s. IsCellWidth V × IsBankOf (deinter_layout V) s.bank };
}

impl<const V: usize> BitDeinter<V> {
    ghost use Rattle.std.specs.Prelude.{◌≡◌, [], IfOk};
    ghost use Rattle.delay_line.specs.Stages.{StandsFor, new_bank};
    ghost use Rattle.bit_inter.specs.Layouts.{deinter_layout, IsCellWidth};

    /// A deinterleaver whose paths hold zeros. Fails only if memory runs out.
    pub fn open(alloc: Global) -> Result<Self, NoMemory>
        requires { IsCellWidth V }
        ensures zeros { IfOk result (λ stage. stage ≡ new_bank (deinter_layout V)) }
        ensures stands { IfOk result (λ stage. StandsFor (⟦<BitDeinter<V> as Stage>⟧.layout stage) (⟦<BitDeinter<V> as Stage>⟧.held stage) []) }
    {
        let mut bank = LineBank::new(alloc);
        for path in 0..V {
            bank.add(alloc, 120 - (120 * path / (V - 1)) as u32, false)?;
        }
        Ok(BitDeinter { bank })
    }
}

impl<const V: usize> Stage for BitDeinter<V> {
    type Item = bool;

    ghost use Rattle.std.specs.Prelude.{[], slice_index_or};
    ghost use Rattle.bit_inter.specs.Layouts.{deinter_layout};

    ghost layout = { λ _. deinter_layout V };

    ghost held = { λ s r. slice_index_or s r [] };

    fn delay(&self) -> u32 {
        120
    }

    fn zero(&self) -> bool {
        false
    }

    fn paths(&self) -> u32 {
        let _ = &self.bank;
        V as u32
    }

    fn path_delay(&self, path: u32) -> u32 {
        let _ = &self.bank;
        120 - 120 * path / (V as u32 - 1)
    }

    fn feed(&mut self, input: &[bool], output: &mut [bool]) {
        self.bank.feed(input, output);
    }
}
