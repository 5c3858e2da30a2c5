//! Laws of time interleaving.

ghost use Rattle.std.specs.Prelude.{◌≡◌, ℕ, ◌*◌, ◌/◌, map, sum};
ghost use Rattle.std.specs.List.{range_with_len};
ghost use Rattle.isdbt_base.specs.Numbers.{carriers, time_depth};
ghost use Rattle.delay_line.specs.Stages.{ArePartners};
ghost use Rattle.time_inter.specs.CellPlaces.{carrier_delay};
ghost use Rattle.time_inter.specs.Layouts.{inter_layout, deinter_layout, layer_layout, layer_deinter_layout};

use isdbt_base::{LayerSetting, Mode};

/// The two sides are partners, either first.
pub fn partner_law()
    ensures sender_first { (length paths : ℕ) → ArePartners (inter_layout length paths) (deinter_layout length paths) }
    ensures receiver_first { (length paths : ℕ) → ArePartners (deinter_layout length paths) (inter_layout length paths) }
{}

/// The two sides of a layer are partners, either first: so are a `LayerInter` and a `LayerDeinter` that were opened for one
/// setting and mode.
pub fn layer_partner_law(setting: &LayerSetting, mode: Mode)
    ensures sender_first { let depth = time_depth mode setting.now.depth in
        ArePartners (layer_layout depth (carriers mode) setting.now.segments) (layer_deinter_layout depth (carriers mode) setting.now.segments) }
    ensures receiver_first { let depth = time_depth mode setting.now.depth in
        ArePartners (layer_deinter_layout depth (carriers mode) setting.now.segments) (layer_layout depth (carriers mode) setting.now.segments) }
{}

/// The delays of a segment's carriers, in interleaving lengths, sum to 95 for each two of them.
pub fn held_law(mode: Mode)
    ensures { 2 * sum (map carrier_delay (range_with_len 0 (carriers mode))) ≡ 95 * carriers mode }
{}
