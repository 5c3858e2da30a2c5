//! Bit deinterleaving for cells of 2, 4 or 6 bits.

use bit_inter::BitDeinter;
use delay_line::Stage;
use isdbt_base::{Modulation, NoMemory};
use std::alloc::Global;

/// The bit deinterleaver of a layer, by its modulation.
#[derive(Drop)]
pub enum BitDeinterleaver {
    Two(BitDeinter<2>),
    Four(BitDeinter<4>),
    Six(BitDeinter<6>),
}

impl BitDeinterleaver {
    ghost use Rattle.std.specs.Prelude.{◌≡◌, [], IfOk};
    ghost use Rattle.isdbt_base.specs.Numbers.{cell_bits};
    ghost use Rattle.delay_line.specs.Stages.{StandsFor};
    ghost use Rattle.bit_inter.specs.Layouts.{deinter_layout};
    ghost use Rattle.layer_chain.specs.BitDeinterleaver.{layout_of, held_of};

    /// A deinterleaver whose paths hold zeros. Fails only if memory runs out.
    pub fn open(alloc: Global, modulation: Modulation) -> Result<BitDeinterleaver, NoMemory>
        ensures layout { IfOk result (λ s. layout_of s ≡ deinter_layout (cell_bits modulation)) }
        ensures stands { IfOk result (λ s. StandsFor (layout_of s) (held_of s) []) }
    {
        let stage = match modulation {
            Modulation::Qpsk => BitDeinterleaver::Two(BitDeinter::open(alloc)?),
            Modulation::Qam16 => BitDeinterleaver::Four(BitDeinter::open(alloc)?),
            Modulation::Qam64 => BitDeinterleaver::Six(BitDeinter::open(alloc)?),
        };
        Ok(stage)
    }
}

impl Stage for BitDeinterleaver {
    type Item = bool;

    ghost use Rattle.layer_chain.specs.BitDeinterleaver.{layout_of, held_of};

    ghost layout = { layout_of };

    ghost held = { held_of };

    fn delay(&self) -> u32 {
        match self {
            BitDeinterleaver::Two(stage) => stage.delay(),
            BitDeinterleaver::Four(stage) => stage.delay(),
            BitDeinterleaver::Six(stage) => stage.delay(),
        }
    }

    fn zero(&self) -> bool {
        false
    }

    fn paths(&self) -> u32 {
        match self {
            BitDeinterleaver::Two(stage) => stage.paths(),
            BitDeinterleaver::Four(stage) => stage.paths(),
            BitDeinterleaver::Six(stage) => stage.paths(),
        }
    }

    fn path_delay(&self, path: u32) -> u32 {
        match self {
            BitDeinterleaver::Two(stage) => stage.path_delay(path),
            BitDeinterleaver::Four(stage) => stage.path_delay(path),
            BitDeinterleaver::Six(stage) => stage.path_delay(path),
        }
    }

    fn feed(&mut self, input: &[bool], output: &mut [bool]) {
        match self {
            BitDeinterleaver::Two(stage) => stage.feed(input, output),
            BitDeinterleaver::Four(stage) => stage.feed(input, output),
            BitDeinterleaver::Six(stage) => stage.feed(input, output),
        }
    }
}
