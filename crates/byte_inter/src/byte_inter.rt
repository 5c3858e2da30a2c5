//! The sending side.

use delay_line::{LineBank, Stage};
use isdbt_base::NoMemory;
use std::alloc::Global;
use std::marker::Model;

/// Byte interleaver of `PATHS` paths: path p is late by `UNIT` * p turns. ISDB-T has 12 paths and a
/// unit of 17.
///
/// Contracts see what each path holds, the next to go out first.
#[derive(Drop)]
pub struct ByteInter<const PATHS: usize, const UNIT: usize> {
    bank: LineBank<u8>,
}

impl<const PATHS: usize, const UNIT: usize> Model for ByteInter<PATHS, UNIT> {
    ghost use Rattle.std.specs.Prelude.{ℕ, List};
    ghost use Rattle.delay_line.specs.Stages.{IsBankOf};
    ghost use Rattle.byte_inter.specs.Layouts.{inter_layout, AreSizes};

    ghost Value = { List (List ℕ) };

    ghost view = { λ s. s.bank };

    ghost invariant = { λ s. AreSizes PATHS UNIT × IsBankOf (inter_layout PATHS UNIT) s.bank };
}

impl<const PATHS: usize, const UNIT: usize> ByteInter<PATHS, UNIT> {
    ghost use Rattle.std.specs.Prelude.{◌≡◌, [], IfOk};
    ghost use Rattle.delay_line.specs.Stages.{StandsFor, new_bank};
    ghost use Rattle.byte_inter.specs.Layouts.{inter_layout, AreSizes};

    /// An interleaver whose paths hold zeros. Fails only if memory runs out.
    pub fn open(alloc: Global) -> Result<Self, NoMemory>
        requires { AreSizes PATHS UNIT }
        ensures zeros { IfOk result (λ stage. stage ≡ new_bank (inter_layout PATHS UNIT)) }
        ensures stands { IfOk result (λ stage. StandsFor (⟦<ByteInter<PATHS, UNIT> as Stage>⟧.layout stage) (⟦<ByteInter<PATHS, UNIT> as Stage>⟧.held stage) []) }
    {
        let mut bank = LineBank::new(alloc);
        for path in 0..PATHS {
            bank.add(alloc, (UNIT * path) as u32, 0)?;
        }
        Ok(ByteInter { bank })
    }
}

impl<const PATHS: usize, const UNIT: usize> Stage for ByteInter<PATHS, UNIT> {
    type Item = u8;

    ghost use Rattle.std.specs.Prelude.{[], slice_index_or};
    ghost use Rattle.byte_inter.specs.Layouts.{inter_layout};

    ghost layout = { λ _. inter_layout PATHS UNIT };

    ghost held = { λ s p. slice_index_or s p [] };

    fn delay(&self) -> u32 {
        let _ = &self.bank;
        UNIT as u32 * (PATHS as u32 - 1)
    }

    fn zero(&self) -> u8 {
        0
    }

    fn paths(&self) -> u32 {
        let _ = &self.bank;
        PATHS as u32
    }

    fn path_delay(&self, path: u32) -> u32 {
        let _ = &self.bank;
        UNIT as u32 * path
    }

    fn feed(&mut self, input: &[u8], output: &mut [u8]) {
        self.bank.feed(input, output);
    }
}
