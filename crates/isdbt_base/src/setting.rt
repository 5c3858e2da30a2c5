//! The setting of a frame: the parameters of its layers.

ghost use Rattle.std.specs.Prelude.{◌≡◌, true};

use crate::kinds::{Guard, Layer, Mode};
use crate::layer_numbers::{cells_of, delay_of, packets_of, segments_of};
use crate::layer_setting::LayerSetting;
use std::marker::Model;

/// Why a setting is refused.
#[derive(Clone, Copy, Debug, PartialEq, Eq)]
pub enum SettingFault {
    /// The used layers' segments have this sum and not 13.
    Segments(u32),
    /// Partial reception is asked for, and layer A has so many segments and not one.
    PartialNotOne(u32),
    /// Layer C is used and B is not.
    LayerGap,
}

/// The partial reception flag and the parameters of the used layers: 13 segments in all, C used only with B, and A of
/// one segment where partial reception is set.
#[derive(Clone, Copy, Debug, PartialEq, Eq)]
pub struct Setting {
    partial: bool,
    a: LayerSetting,
    b: Option<LayerSetting>,
    c: Option<LayerSetting>,
}

/// Whether two layers that may be unused are the same.
fn are_equal(a: &Option<LayerSetting>, b: &Option<LayerSetting>) -> bool
    ensures equal { result ≡ true → a.now ≡ b.now }
    ensures same { a.now ≡ b.now → result ≡ true }
{
    a == b
}

impl Model for Setting {
    ghost use Rattle.isdbt_base.specs.Parameters.{Parameters, IsAccepted};

    ghost Value = { Parameters };

    ghost view = { λ s. record { partial = s.partial; a = s.a; b = s.b; c = s.c } };

    ghost invariant = { λ s. IsAccepted (record { partial = s.partial; a = s.a; b = s.b; c = s.c }) };

    ghost inverse = { λ p. record { partial = p.partial; a = p.a; b = p.b; c = p.c } };
}

/// One layer of 13 segments with QPSK at rate 1/2 and no time interleaving, and no partial reception.
impl Default for Setting {
    ghost use Rattle.std.specs.Prelude.{◌≡◌, false, None};
    ghost use Rattle.isdbt_base.specs.LayerParameters.{default_layer};

    fn default() -> Setting
        ensures { result ≡ record { partial = false; a = default_layer; b = None; c = None } }
    {
        Setting {
            partial: false,
            a: LayerSetting::default(),
            b: None,
            c: None,
        }
    }
}

impl Setting {
    ghost use Rattle.std.specs.Prelude.{◌≡◌, ◌<◌, ◌≤◌, true, Some, None, IsSome, MatchResult};
    ghost use Rattle.isdbt_base.specs.Parameters.{Parameters, IsAccepted, layer_of, number_of, sum_before};
    ghost use Rattle.isdbt_base.specs.Refusals.{refusal_of};
    ghost use Rattle.isdbt_base.specs.Switching.{other_layer};
    ghost use Rattle.isdbt_base.specs.Numbers.{slots_per_frame, total_packets, greatest_delay, first_segment, packets_per_frame, layer_delay, layer_cells};

    /// The setting of these layers, or the first cause to refuse it, in the order of [`SettingFault`].
    pub fn new(
        partial: bool,
        a: LayerSetting,
        b: Option<LayerSetting>,
        c: Option<LayerSetting>,
    ) -> Result<Setting, SettingFault>
        ensures { let asked : Parameters = record { partial = partial; a = a; b = b; c = c } in
            MatchResult result (λ s. (s ≡ asked) × (refusal_of asked ≡ None)) (λ fault. refusal_of asked ≡ Some fault) }
    {
        let sum = a.segments() + segments_of(&b) + segments_of(&c);
        if sum != 13 {
            return Err(SettingFault::Segments(sum));
        }
        if partial && a.segments() != 1 {
            return Err(SettingFault::PartialNotOne(a.segments()));
        }
        if b.is_none() && c.is_some() {
            return Err(SettingFault::LayerGap);
        }
        Ok(Setting { partial, a, b, c })
    }

    /// Each setting is accepted.
    pub fn acceptance_law(&self)
        ensures { IsAccepted self.now }
    {
        let _partial = &self.partial;
    }

    /// Whether two settings have the same partial reception flag and the same layers.
    pub fn is_equal(&self, other: &Setting) -> bool
        ensures equal { result ≡ true → self.now ≡ other.now }
        ensures same { self.now ≡ other.now → result ≡ true }
    {
        if self.partial() != other.partial()
            || !are_equal(&self.layer(Layer::A), &other.layer(Layer::A))
        {
            return false;
        }
        are_equal(&self.layer(Layer::B), &other.layer(Layer::B))
            && are_equal(&self.layer(Layer::C), &other.layer(Layer::C))
    }

    /// The first layer that one of two settings uses and the other doesn't.
    pub fn other_layer(&self, other: &Setting) -> Option<Layer>
        ensures { result ≡ other_layer self.now other.now }
    {
        if self.b.is_some() != other.b.is_some() {
            return Some(Layer::B);
        }
        if self.c.is_some() != other.c.is_some() {
            return Some(Layer::C);
        }
        None
    }

    /// The partial reception flag.
    pub fn partial(&self) -> bool
        ensures { result ≡ self.now.partial }
    {
        self.partial
    }

    /// The parameters of layer A, which each setting uses.
    pub fn a(&self) -> LayerSetting
        ensures { result ≡ self.now.a }
    {
        self.a
    }

    /// The parameters of a layer, or None exactly where it is unused.
    pub fn layer(&self, layer: Layer) -> Option<LayerSetting>
        ensures { result ≡ layer_of self.now layer }
    {
        match layer {
            Layer::A => Some(self.a),
            Layer::B => self.b,
            Layer::C => self.c,
        }
    }

    /// Cells of a layer in a symbol: none where the layer is unused.
    pub fn cells(&self, layer: Layer, mode: Mode) -> u32
        ensures value { result ≡ number_of (layer_cells mode) (layer_of self.now layer) }
        ensures most { result ≤ 4992 }
    {
        cells_of(&self.layer(layer), mode)
    }

    /// Packets of a layer in a frame: at least 12, or none where the layer is unused.
    pub fn packets(&self, layer: Layer, mode: Mode) -> u32
        ensures value { result ≡ number_of (packets_per_frame mode) (layer_of self.now layer) }
        ensures least { IsSome (layer_of self.now layer) → 12 ≤ result }
        ensures most { result ≤ 3276 }
    {
        match self.layer(layer) {
            Some(used) => used.packets(mode),
            None => 0,
        }
    }

    /// The first segment of a used layer: layers take segments in the order A, B, C.
    pub fn first_segment(&self, layer: Layer) -> u32
        requires { IsSome (layer_of self.now layer) }
        ensures value { result ≡ first_segment self.now layer }
        ensures most { result ≤ 13 }
    {
        match layer {
            Layer::A => 0,
            Layer::B => self.a.segments(),
            Layer::C => self.a.segments() + segments_of(&self.b),
        }
    }

    /// Cells of the layers before a layer, in a symbol.
    pub fn cells_before(&self, mode: Mode, layer: Layer) -> u32
        ensures value { result ≡ sum_before (layer_cells mode) self.now layer }
        ensures most { result ≤ 9984 }
    {
        match layer {
            Layer::A => 0,
            Layer::B => self.a.cells(mode),
            Layer::C => self.a.cells(mode) + cells_of(&self.b, mode),
        }
    }

    /// Packets of the layers before a layer, in a frame.
    pub fn packets_before(&self, mode: Mode, layer: Layer) -> u32
        ensures value { result ≡ sum_before (packets_per_frame mode) self.now layer }
        ensures most { result ≤ 6552 }
    {
        match layer {
            Layer::A => 0,
            Layer::B => self.a.packets(mode),
            Layer::C => self.a.packets(mode) + packets_of(&self.b, mode),
        }
    }

    /// Packets of all layers in a frame.
    pub fn total(&self, mode: Mode) -> u32
        ensures { result ≡ total_packets mode self.now }
    {
        self.a.packets(mode) + packets_of(&self.b, mode) + packets_of(&self.c, mode)
    }

    /// The packets of all layers leave at least one slot of a frame free.
    pub fn total_law(&self, mode: Mode, guard: Guard)
        ensures { total_packets mode self.now < slots_per_frame mode guard }
    {
        self.acceptance_law();
        let (_mode, _guard) = (mode, guard);
    }

    /// The greatest delay of the used layers.
    pub fn max_delay(&self, mode: Mode) -> u32
        ensures value { result ≡ greatest_delay mode self.now }
        ensures most { result ≤ 10 }
    {
        self.a
            .delay(mode)
            .max(delay_of(&self.b, mode).max(delay_of(&self.c, mode)))
    }
}
