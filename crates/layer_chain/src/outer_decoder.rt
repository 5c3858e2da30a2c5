//! The outer decoder of a layer: the packets that are given out for the units of a frame.

ghost use Rattle.std.specs.Prelude.{◌≡◌, ℕ, ◌+◌, ◌*◌, ◌/◌, ◌%◌, ◌<◌, length, take, slice_index, bit_xor};
ghost use Rattle.energy_prbs.specs.Sequence.{sequence_byte};
ghost use Rattle.energy_prbs.specs.StandsFor.{StandsFor};
ghost use Rattle.ts_packet.specs.Packets.{null_packet, packet_bytes, piece_or_null};
ghost use Rattle.layer_chain.specs.OuterWords.{outer_answer};
ghost use Rattle.layer_chain.specs.UnitWords.{word_in};

use crate::units::UNIT;
use energy_prbs::Prbs;
use gf_rs::{Nearest, Rs};
use isdbt_base::put;
use ts_packet::{PACKET_BYTES, Packet, SYNC};

/// The outer word of a unit: the sync byte, and the unit's bytes but the last, without the dispersal.
fn word_of(unit: &[u8], prbs: &mut Prbs) -> [u8; UNIT]
    requires { length unit.now ≡ 204 }
    ensures bytes { (n : ℕ) → StandsFor prbs.old n → (a : ℕ) → a < 203
        → slice_index result (a + 1) ≡ bit_xor (slice_index unit.now a) (sequence_byte (n + a)) }
    ensures sync { slice_index result 0 ≡ 0x47 }
    ensures state { (n : ℕ) → StandsFor prbs.old n → StandsFor prbs.new (n + 204) }
{
    let mut bytes = [0u8; UNIT];
    bytes.copy_from_slice(unit);
    prbs.disperse(&mut bytes);
    let mut word = [SYNC; UNIT];
    put(&mut word, 1, &bytes[..UNIT - 1]);
    word
}

/// The packet of a word's first bytes.
fn packet_of(word: &[u8]) -> Packet
    requires size { length word.now ≡ 204 }
    requires sync { slice_index word.now 0 ≡ 0x47 }
    ensures { result ≡ take 188 word.now }
{
    match Packet::read(&word[..PACKET_BYTES]) {
        Ok(packet) => packet,
        Err(_) => Packet::null(),
    }
}

/// The packet that is given out for an outer word.
fn answer_of(word: &[u8]) -> Packet
    requires size { length word.now ≡ 204 }
    requires sync { slice_index word.now 0 ≡ 0x47 }
    ensures { result ≡ outer_answer word.now }
{
    let mut near = [0u8; UNIT];
    near.copy_from_slice(word);
    match Rs::<16>::nearest(&mut near) {
        Nearest::Codeword(_) => {
            if near[0] == SYNC {
                packet_of(&near)
            } else {
                packet_of(word).with_error_mark()
            }
        }
        Nearest::Far => packet_of(word).with_error_mark(),
    }
}

/// Writes the packets that are given out for the units of a frame, 188 bytes for each unit: of each the packet of the
/// codeword near its outer word, and where there is none, or it doesn't begin with the sync byte, the word's own bytes with
/// the transport error indicator set.
pub fn put_answers(units: &[u8], out: &mut [u8])
    requires { length out.old ≡ packet_bytes * (length units.now / 204) }
    ensures { (j : ℕ) → j < length units.now / 204 → piece_or_null out.new j ≡ outer_answer (word_in (length units.now / 204) units.now j) }
{
    let mut prbs = Prbs::start();
    let mut unit = 0;
    let mut at = 0;
    for _ in 0..units.len() / UNIT {
        let next = unit + UNIT;
        let answer = answer_of(&word_of(&units[unit..next], &mut prbs));
        at = put(out, at, answer.bytes());
        unit = next;
    }
}

/// Fills a buffer, whole packets of 188 bytes, with null packets.
pub fn put_nulls(out: &mut [u8])
    requires { length out.old % packet_bytes ≡ 0 }
    ensures { (j : ℕ) → piece_or_null out.new j ≡ null_packet }
{
    let null = Packet::null();
    let mut at = 0;
    for _ in 0..out.len() / PACKET_BYTES {
        at = put(out, at, null.bytes());
    }
}
