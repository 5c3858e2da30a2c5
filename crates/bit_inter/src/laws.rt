//! Laws of bit places.

ghost use Rattle.std.specs.Prelude.{◌≡◌, ◌≢◌, ℕ, ◌+◌, ◌*◌, ◌/◌, ◌%◌, ◌<◌, ◌≤◌, Bool, false, List, ◌++◌, length, map, slice_index_or, sum};
ghost use Rattle.std.specs.List.{range_with_len};
ghost use Rattle.delay_line.specs.Lines.{item_of};
ghost use Rattle.delay_line.specs.Stages.{ArePartners, stage_item};
ghost use Rattle.delay_line.specs.Adjusted.{AdjustedStandsFor, AdjustedFeeds};
ghost use Rattle.bit_inter.specs.BitPlaces.{bit_adjustment, cell_of_bit, bit_place, interleaved_bits};
ghost use Rattle.bit_inter.specs.Layouts.{inter_layout, deinter_layout, IsCellWidth};

/// The places of a layer's coded bits, of `v` bits a cell and so many cells a symbol: each bit stands
/// at its place, a place has one bit at most, and a place that no bit takes holds false.
pub fn place_law(v: u32, cells: u32)
    requires width { 0 < v }
    requires cells { 60 ≤ cells }
    ensures at { (coded : ℕ → Bool) (c : ℕ) → interleaved_bits coded v cells (bit_place v cells c) ≡ coded c }
    ensures cell { (c : ℕ) → bit_place v cells c / v ≡ cell_of_bit v cells c }
    ensures bit { (c : ℕ) → bit_place v cells c % v ≡ c % v }
    ensures within { (c : ℕ) → (c ≤ bit_place v cells c) × (bit_place v cells c ≤ c + v * (2 * cells)) }
    ensures one { (c d : ℕ) → bit_place v cells c ≡ bit_place v cells d → c ≡ d }
    ensures none { (coded : ℕ → Bool) (q : ℕ) → ((c : ℕ) → bit_place v cells c ≢ q) → interleaved_bits coded v cells q ≡ false }
    ensures prefix { (coded other : ℕ → Bool) (q : ℕ) → ((c : ℕ) → c ≤ q → coded c ≡ other c) → interleaved_bits coded v cells q ≡ interleaved_bits other v cells q }
{}

/// A line of `v` * (2 * `cells` - 120) zeros and the interleaver behind it, which stand for `h` and
/// are fed `x`, give the bits at the places that follow.
pub fn sender_law(v: u32, cells: u32)
    ensures { (h x middle output line new_line : List Bool) (held new_held : ℕ → List Bool)
        → AdjustedStandsFor (inter_layout v) (bit_adjustment v cells) line held h → AdjustedFeeds (inter_layout v) line held x middle output new_line new_held
        → (n : ℕ) → n < length x
        → slice_index_or output n false ≡ interleaved_bits (item_of false (h ++ x)) v cells (length h + n) }
{}

/// The deinterleaver, fed what stands at the places of a layer with so many cells a symbol, gives
/// coded bit c two symbols, `v` * 2 * `cells` bits, behind its own number.
pub fn receiver_law(v: u32, cells: u32)
    requires width { 0 < v }
    requires cells { 60 ≤ cells }
    ensures { (stream : ℕ → Bool) (c : ℕ) → stage_item (deinter_layout v) stream (c + v * (2 * cells)) ≡ stream (bit_place v cells c) }
{}

/// The two sides are partners, either first.
pub fn partner_law<const V: usize>()
    requires { 0 < V }
    ensures sender_first { ArePartners (inter_layout V) (deinter_layout V) }
    ensures receiver_first { ArePartners (deinter_layout V) (inter_layout V) }
{}

/// The interleaver and the deinterleaver each hold 60 * `v` bits.
pub fn held_law(v: u32)
    requires { IsCellWidth v }
    ensures sender { sum (map (inter_layout v).path_delay (range_with_len 0 v)) ≡ 60 * v }
    ensures receiver { sum (map (deinter_layout v).path_delay (range_with_len 0 v)) ≡ 60 * v }
{}
