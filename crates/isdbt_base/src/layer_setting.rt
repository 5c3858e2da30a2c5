//! The parameters of one layer.

use crate::kinds::{DepthCode, Mode, Modulation, Rate};
use crate::numbers::{bits_per_cell, carriers, frames_over, rate_pair};
use std::marker::Model;

/// Segments (1 to 13), carrier modulation, inner code rate and time interleaving length of one layer.
#[derive(Clone, Copy, Debug, PartialEq, Eq)]
pub struct LayerSetting {
    segments: u32,
    modulation: Modulation,
    rate: Rate,
    depth: DepthCode,
}

impl Model for LayerSetting {
    ghost use Rattle.std.specs.Prelude.{◌≤◌};
    ghost use Rattle.isdbt_base.specs.LayerParameters.{LayerParameters};

    ghost Value = { LayerParameters };

    ghost view = { λ s. record { segments = s.segments; modulation = s.modulation; rate = s.rate; depth = s.depth } };

    ghost invariant = { λ s. (1 ≤ s.segments) × (s.segments ≤ 13) };

    ghost inverse = { λ p. record { segments = p.segments; modulation = p.modulation; rate = p.rate; depth = p.depth } };
}

/// All 13 segments with QPSK at rate 1/2, and no time interleaving.
impl Default for LayerSetting {
    ghost use Rattle.std.specs.Prelude.{◌≡◌};
    ghost use Rattle.isdbt_base.specs.LayerParameters.{default_layer};

    fn default() -> LayerSetting
        ensures { result ≡ default_layer }
    {
        LayerSetting {
            segments: 13,
            modulation: Modulation::Qpsk,
            rate: Rate::R12,
            depth: DepthCode::D0,
        }
    }
}

impl LayerSetting {
    ghost use Rattle.std.specs.Prelude.{◌≡◌, ◌<◌, ◌≤◌, ◌⊎◌, MatchOption};
    ghost use Rattle.isdbt_base.specs.LayerParameters.{HasSegments};
    ghost use Rattle.isdbt_base.specs.Numbers.{packets_per_frame, layer_delay, layer_cells};

    /// The parameters, or None exactly where segments is 0 or more than 13.
    pub fn new(
        segments: u32,
        modulation: Modulation,
        rate: Rate,
        depth: DepthCode,
    ) -> Option<LayerSetting>
        ensures { MatchOption result ((segments ≡ 0) ⊎ (13 < segments))
            (λ l. (1 ≤ segments) × (segments ≤ 13)
            × (l ≡ record { segments = segments; modulation = modulation; rate = rate; depth = depth })) }
    {
        if segments == 0 || segments > 13 {
            return None;
        }
        Some(LayerSetting {
            segments,
            modulation,
            rate,
            depth,
        })
    }

    /// Segments, 1 to 13.
    pub fn segments(&self) -> u32
        ensures value { result ≡ self.now.segments }
        ensures range { HasSegments self.now }
    {
        self.segments
    }

    /// Carrier modulation.
    pub fn modulation(&self) -> Modulation
        ensures { result ≡ self.now.modulation }
    {
        self.modulation
    }

    /// Inner code rate.
    pub fn rate(&self) -> Rate
        ensures { result ≡ self.now.rate }
    {
        self.rate
    }

    /// TMCC code of the time interleaving length.
    pub fn depth(&self) -> DepthCode
        ensures { result ≡ self.now.depth }
    {
        self.depth
    }

    /// Cells of the layer in a symbol.
    pub fn cells(&self, mode: Mode) -> u32
        ensures value { result ≡ layer_cells mode self.now }
        ensures least { 96 ≤ result }
        ensures most { result ≤ 4992 }
    {
        self.segments() * carriers(mode)
    }

    /// Packets of the layer in a frame.
    pub fn packets(&self, mode: Mode) -> u32
        ensures value { result ≡ packets_per_frame mode self.now }
        ensures least { 12 ≤ result }
        ensures most { result ≤ 3276 }
    {
        let (steps, bits) = rate_pair(self.rate);
        self.cells(mode) * bits_per_cell(self.modulation) * steps / (8 * bits)
    }

    /// Frames of delay from a packet's frame to the frame in which the receiver gives it out.
    pub fn delay(&self, mode: Mode) -> u32
        ensures value { result ≡ layer_delay mode self.now }
        ensures most { result ≤ 10 }
    {
        frames_over(mode, self.depth) + 2
    }
}
