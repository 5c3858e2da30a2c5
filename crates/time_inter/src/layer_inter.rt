//! The sending side of a layer.

ghost use Rattle.std.specs.Prelude.{◌≤◌};
ghost use Rattle.isdbt_base.specs.Numbers.{carriers};
ghost use Rattle.delay_line.specs.Stages.{IsBankOf};
ghost use Rattle.time_inter.specs.Layouts.{layer_layout};

use delay_line::{LineBank, Stage};
use isdbt_base::{LayerSetting, Mode, NoMemory, carriers, depth_of};
use std::alloc::Global;

/// Time interleaver of a layer: an interleaver for each of its segments, side by side. A turn is the cells of one symbol
/// of the layer, segment after segment; an item is a cell's bits.
#[derive(Drop)]
pub struct LayerInter {
    mode: Mode,
    segments: u32,
    length: u32,
    bank: LineBank<u8>,
    ghost least_segments: { 1 ≤ segments },
    ghost most_segments: { segments ≤ 13 },
    ghost most_length: { length ≤ 16 },
    ghost lines: { IsBankOf (layer_layout length (carriers mode) segments) bank },
}

impl LayerInter {
    ghost use Rattle.std.specs.Prelude.{◌≡◌, [], IfOk};
    ghost use Rattle.isdbt_base.specs.Numbers.{time_depth};
    ghost use Rattle.delay_line.specs.Stages.{StandsFor};
    ghost use Rattle.time_inter.specs.LayerStage.{layout_of, held_of};

    /// An interleaver for a layer, whose paths hold zeros. Fails only if memory runs out.
    pub fn open(alloc: Global, setting: &LayerSetting, mode: Mode) -> Result<LayerInter, NoMemory>
        ensures layout { IfOk result (λ stage. layout_of stage ≡ layer_layout (time_depth mode setting.now.depth) (carriers mode) setting.now.segments) }
        ensures stands { IfOk result (λ stage. StandsFor (layout_of stage) (held_of stage) []) }
    {
        let length = depth_of(mode, setting.depth());
        let mut bank = LineBank::new(alloc);
        for cell in 0..setting.cells(mode) {
            bank.add(alloc, length * (5 * (cell % carriers(mode)) % 96), 0)?;
        }
        Ok(LayerInter {
            mode,
            segments: setting.segments(),
            length,
            bank,
        })
    }
}

impl Stage for LayerInter {
    type Item = u8;

    ghost use Rattle.time_inter.specs.LayerStage.{layout_of, held_of};

    ghost layout = { layout_of };

    ghost held = { held_of };

    fn delay(&self) -> u32 {
        self.length * 95
    }

    fn zero(&self) -> u8 {
        0
    }

    fn paths(&self) -> u32 {
        self.segments * carriers(self.mode)
    }

    fn path_delay(&self, path: u32) -> u32 {
        self.length * (5 * (path % carriers(self.mode)) % 96)
    }

    fn feed(&mut self, input: &[u8], output: &mut [u8]) {
        if self.length == 0 {
            // No path is late.
            output.copy_from_slice(input);
        } else {
            self.bank.feed(input, output);
        }
    }
}
