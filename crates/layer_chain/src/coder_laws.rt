//! Laws of what is sent of a layer.

ghost use Rattle.std.specs.Prelude.{◌≡◌, ℕ, ◌*◌, ◌<◌, Bool, List};
ghost use Rattle.isdbt_base.specs.Numbers.{layer_cells, cell_bits, packets_per_frame};
ghost use Rattle.delay_line.specs.Stages.{ArePartners};
ghost use Rattle.bit_inter.specs.Layouts.{inter_layout, deinter_layout};
ghost use Rattle.layer_chain.specs.CodedBits.{layer_coded_bit};
ghost use Rattle.layer_chain.specs.LayerCells.{bit_place, cell_bits_at, read_bit};

use isdbt_base::{LayerSetting, Mode, Modulation};

/// The coded bits of some frames depend on the packets of these frames alone.
pub fn prefix_law(mode: Mode, layer: LayerSetting)
    ensures { (packet other : ℕ → List ℕ) (frames c : ℕ) → c < 204 * layer_cells mode layer * cell_bits layer.modulation * frames
        → ((m : ℕ) → m < packets_per_frame mode layer * frames → packet m ≡ other m)
        → layer_coded_bit mode layer packet c ≡ layer_coded_bit mode layer other c }
{}

/// Reading at the place of a coded bit gives that bit.
pub fn read_back_law(mode: Mode, layer: LayerSetting)
    ensures { (coded : ℕ → Bool) (c : ℕ) → read_bit mode layer (cell_bits_at mode layer coded) c ≡ coded c }
{}

/// No two coded bits have the same place.
pub fn distinct_places_law(mode: Mode, layer: LayerSetting)
    ensures { (c other : ℕ) → bit_place mode layer c ≡ bit_place mode layer other → c ≡ other }
{}

/// The cells of some frames depend on the packets of these frames alone.
pub fn cell_prefix_law(mode: Mode, layer: LayerSetting)
    ensures { (packet other : ℕ → List ℕ) (frames y w : ℕ) → y < 204 * frames → w < layer_cells mode layer
        → ((m : ℕ) → m < packets_per_frame mode layer * frames → packet m ≡ other m)
        → cell_bits_at mode layer (layer_coded_bit mode layer packet) y w ≡ cell_bits_at mode layer (layer_coded_bit mode layer other) y w }
{}

/// The two sides of bit interleaving of a layer are partners, either first: so are a `BitInter` for the modulation's cells and
/// a `BitDeinterleaver` that was opened for the modulation.
pub fn bit_partner_law(modulation: Modulation)
    ensures sender_first { ArePartners (inter_layout (cell_bits modulation)) (deinter_layout (cell_bits modulation)) }
    ensures receiver_first { ArePartners (deinter_layout (cell_bits modulation)) (inter_layout (cell_bits modulation)) }
{}
