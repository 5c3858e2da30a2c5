//! What is counted of a layer's packets.

ghost use Rattle.std.specs.Prelude.{◌≡◌, ℕ, Bool, List, [], ◌+◌, ◌*◌, ◌≤◌, ◌<◌, cond, nat_le, length, sum, sum_by, count_by, slice_index, slice_index_or};
ghost use Rattle.std.specs.List.{range_with_len};
ghost use Rattle.std.specs.Str.{bytes_eq};
ghost use Rattle.ts_packet.specs.Packets.{piece};
ghost use Rattle.sample.specs.Counting.{AreCompared};

use ts_packet::{PACKET_BYTES, Packet};

/// What is counted of a layer.
#[derive(Clone, Copy, Debug, PartialEq, Eq)]
pub struct Tally {
    /// The input packets that are received as they were sent.
    pub met: u32,
    /// The received packets whose transport error indicator is set.
    pub marked: u32,
    /// The sum of all bytes of the packets that are met.
    pub sum: u32,
}

/// The sum of the bytes of a packet.
fn byte_sum(bytes: &[u8]) -> u32
    requires { length bytes.now ≤ 188 }
    ensures value { result ≡ sum bytes.now }
    ensures most { result ≤ 255 * length bytes.now }
{
    let mut total = 0;
    for byte in bytes {
        total += u32::from(*byte);
    }
    total
}

/// Whether a received packet is this one.
fn is_same(packet: &Packet, bytes: &[u8]) -> bool
    ensures { result ≡ bytes_eq packet.now bytes.now }
{
    packet.bytes() == bytes
}

/// Compares received packets with those of the input from one on, and counts those that are met.
pub fn count_met(tally: &mut Tally, input: &[u8], first: usize, packets: &[Packet])
    requires within { 188 * (first + length packets.now) ≤ length input.now }
    requires few { first + length packets.now ≤ 3000 }
    requires met { tally.old.met ≤ first }
    requires sum { tally.old.sum ≤ 47940 * first }
    ensures met_most { tally.new.met ≤ first + length packets.now }
    ensures sum_most { tally.new.sum ≤ 47940 * (first + length packets.now) }
    ensures marked { tally.new.marked ≡ tally.old.marked }
    ensures met { (met : ℕ → Bool) (packet : ℕ → List ℕ) → AreCompared met packet input.now first packets.now
        → tally.old.met ≡ count_by met (range_with_len 0 first) → tally.new.met ≡ count_by met (range_with_len 0 (first + length packets.now)) }
    ensures sum { (met : ℕ → Bool) (packet : ℕ → List ℕ) → AreCompared met packet input.now first packets.now
        → tally.old.sum ≡ sum_by (λ i. cond (met i) (sum (packet i)) 0) (range_with_len 0 first)
        → tally.new.sum ≡ sum_by (λ i. cond (met i) (sum (packet i)) 0) (range_with_len 0 (first + length packets.now)) }
{
    for j in 0..packets.len() {
        let start = PACKET_BYTES * (first + j);
        let sent = &input[start..start + PACKET_BYTES];
        if is_same(&packets[j], sent) {
            tally.met += 1;
            tally.sum += byte_sum(sent);
        }
    }
}

/// How many packets have their transport error indicator set.
pub fn marked_count(packets: &[Packet]) -> u32
    requires { length packets.now ≤ 3000 }
    ensures value { result ≡ count_by (λ j. nat_le 128 (slice_index (slice_index_or packets.now j []) 1)) (range_with_len 0 (length packets.now)) }
    ensures most { result ≤ length packets.now }
{
    let mut count = 0;
    for j in 0..packets.len() {
        if packets[j].error_mark() {
            count += 1;
        }
    }
    count
}
