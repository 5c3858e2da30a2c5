//! Laws of what is given out for the cells of a layer.

ghost use Rattle.std.specs.Prelude.{◌≡◌, ◌≢◌, ◌↔◌, ℕ, ◌+◌, ◌-◌, ◌*◌, ◌<◌, ◌≤◌, Some, List, length, slice_index, take};
ghost use Rattle.isdbt_base.specs.LayerParameters.{LayerParameters, HasSegments};
ghost use Rattle.isdbt_base.specs.Numbers.{layer_cells, layer_delay, packets_per_frame};
ghost use Rattle.ts_packet.specs.Packets.{IsPacket, marked};
ghost use Rattle.gf_rs.specs.Codewords.{IsBytes, IsNear, codeword_of, differing};
ghost use Rattle.layer_chain.specs.CodedBits.{layer_coded_bit};
ghost use Rattle.layer_chain.specs.LayerCells.{cell_bits_at};
ghost use Rattle.layer_chain.specs.OuterWords.{given_out, near_codeword, outer_answer, unit_answer, unit_word};

use isdbt_base::{LayerSetting, Mode};

/// Received without errors, the outer word of unit m is the codeword of packet m, and its answer this packet.
pub fn clean_words_law(mode: Mode, layer: LayerSetting)
    ensures words { (packet : ℕ → List ℕ) (m : ℕ) → IsPacket (packet m) → IsBytes (packet m)
        → unit_word mode layer (cell_bits_at mode layer (layer_coded_bit mode layer packet)) m ≡ codeword_of 16 (packet m) }
    ensures answers { (packet : ℕ → List ℕ) (m : ℕ) → IsPacket (packet m) → IsBytes (packet m)
        → unit_answer mode layer (cell_bits_at mode layer (layer_coded_bit mode layer packet)) m ≡ packet m }
{}

/// The cells of the frames up to h of an epoch determine the outer words of the units that are given out with frame h, and
/// so what is given out with it.
pub fn window_law(mode: Mode)
    ensures words { (l : LayerParameters) (cells other : ℕ → ℕ → ℕ) (h j : ℕ) → HasSegments l → layer_delay mode l ≤ h → j < packets_per_frame mode l
        → ((y w : ℕ) → y < 204 * (h + 1) → w < layer_cells mode l → cells y w ≡ other y w)
        → unit_word mode l cells ((h - layer_delay mode l) * packets_per_frame mode l + j) ≡ unit_word mode l other ((h - layer_delay mode l) * packets_per_frame mode l + j) }
    ensures given { (l : LayerParameters) (cells other : ℕ → ℕ → ℕ) (h j : ℕ) → HasSegments l → j < packets_per_frame mode l
        → ((y w : ℕ) → y < 204 * (h + 1) → w < layer_cells mode l → cells y w ≡ other y w)
        → given_out mode l cells h j ≡ given_out mode l other h j }
{}

/// The codeword that is found for a word is the codeword near it.
pub fn near_codeword_law(word: &[u8])
    requires { length word.now ≤ 255 }
    ensures { (near : List ℕ) → (near_codeword word.now ≡ Some near) ↔ IsNear 16 word.now near }
{}

/// A word that differs in at most eight bytes from the codeword of a packet has this packet as its answer.
pub fn near_answer_law(word: &[u8])
    requires { length word.now ≡ 204 }
    ensures { (packet : List ℕ) → IsPacket packet → IsBytes packet → differing word.now (codeword_of 16 packet) ≤ 8 → outer_answer word.now ≡ packet }
{}

/// The answer of a word: the packet of the codeword near it, where there is one and it begins with the sync byte; else the
/// word's first bytes, marked. Of a word that begins with the sync byte it is a packet.
pub fn answer_law(word: &[u8])
    requires { length word.now ≡ 204 }
    ensures near { (near : List ℕ) → IsNear 16 word.now near → slice_index near 0 ≡ 0x47 → outer_answer word.now ≡ take 188 near }
    ensures foreign { (near : List ℕ) → IsNear 16 word.now near → slice_index near 0 ≢ 0x47 → outer_answer word.now ≡ marked (take 188 word.now) }
    ensures far { ((near : List ℕ) → IsNear 16 word.now near → ⊥) → outer_answer word.now ≡ marked (take 188 word.now) }
    ensures packet { slice_index word.now 0 ≡ 0x47 → IsPacket (outer_answer word.now) }
{}

/// What is given out is a packet, whatever the cells.
pub fn given_packet_law(mode: Mode, layer: LayerSetting)
    ensures { (cells : ℕ → ℕ → ℕ) (h j : ℕ) → IsPacket (given_out mode layer cells h j) }
{}
