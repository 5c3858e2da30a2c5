//! Laws of byte places.

ghost use Rattle.std.specs.Prelude.{◌≡◌, ◌≢◌, ℕ, ◌+◌, ◌*◌, ◌%◌, ◌<◌, ◌≤◌, List, ◌++◌, length, map, slice_index_or, sum};
ghost use Rattle.std.specs.List.{range_with_len};
ghost use Rattle.delay_line.specs.Lines.{item_of};
ghost use Rattle.delay_line.specs.Stages.{ArePartners, stage_item};
ghost use Rattle.delay_line.specs.Adjusted.{AdjustedStandsFor, AdjustedFeeds};
ghost use Rattle.byte_inter.specs.BytePlaces.{byte_adjustment, byte_place, interleaved};
ghost use Rattle.byte_inter.specs.Layouts.{inter_layout, deinter_layout};

/// The places of a layer's bytes, of t packets a frame: each byte stands at its place, a place has
/// one byte at most, and a place that no byte takes holds 0.
pub fn place_law(t: u32)
    requires { 11 ≤ t }
    ensures at { (sent : ℕ → ℕ) (n : ℕ) → interleaved sent t (byte_place t n) ≡ sent n }
    ensures line { (n : ℕ) → byte_place t n % 12 ≡ n % 12 }
    ensures within { (n : ℕ) → (n ≤ byte_place t n) × (byte_place t n ≤ n + 204 * t) }
    ensures one { (m n : ℕ) → byte_place t m ≡ byte_place t n → m ≡ n }
    ensures none { (sent : ℕ → ℕ) (q : ℕ) → ((n : ℕ) → byte_place t n ≢ q) → interleaved sent t q ≡ 0 }
    ensures prefix { (sent other : ℕ → ℕ) (q : ℕ) → ((n : ℕ) → n ≤ q → sent n ≡ other n) → interleaved sent t q ≡ interleaved other t q }
{}

/// A line of 204 * (t - 11) zeros and `ByteInter<12, 17>` behind it, which stand for `h` and are fed
/// `x`, give the bytes at the places that follow.
pub fn sender_law(t: u32)
    ensures { let l = inter_layout 12 17 in (h x middle output line new_line : List ℕ) (held new_held : ℕ → List ℕ)
        → AdjustedStandsFor l (byte_adjustment t) line held h → AdjustedFeeds l line held x middle output new_line new_held
        → (n : ℕ) → n < length x
        → slice_index_or output n 0 ≡ interleaved (item_of 0 (h ++ x)) t (length h + n) }
{}

/// `ByteDeinter<12, 17>`, fed what stands at the places of a layer of t packets a frame, gives byte n
/// one frame, 204 * t bytes, behind its own number.
pub fn receiver_law(t: u32)
    requires { 11 ≤ t }
    ensures { (stream : ℕ → ℕ) (n : ℕ) → stage_item (deinter_layout 12 17) stream (n + 204 * t) ≡ stream (byte_place t n) }
{}

/// The two sides are partners, either first.
pub fn partner_law<const PATHS: usize, const UNIT: usize>()
    ensures sender_first { ArePartners (inter_layout PATHS UNIT) (deinter_layout PATHS UNIT) }
    ensures receiver_first { ArePartners (deinter_layout PATHS UNIT) (inter_layout PATHS UNIT) }
{}

/// With 12 paths and a unit of 17, the interleaver and the deinterleaver each hold 1122 bytes.
pub fn held_law()
    ensures sender { sum (map (inter_layout 12 17).path_delay (range_with_len 0 12)) ≡ 1122 }
    ensures receiver { sum (map (deinter_layout 12 17).path_delay (range_with_len 0 12)) ≡ 1122 }
{}
