//! Coded bits that are known: by hand, and sums of an independent program's.

ghost use Rattle.std.specs.Prelude.{◌≡◌, ◌*◌, IfOk, vec_len};
ghost use Rattle.isdbt_base.specs.Numbers.{layer_cells, cell_bits};

use crate::CodedLayer;
use isdbt_base::{DepthCode, LayerSetting, Mode, Modulation, Rate, bits_per_cell};
use std::alloc::Global;
use std::test::Fail;
use ts_packet::Packet;

/// Packet m: the sync byte, and then (7*i + m) mod 256 at byte i.
fn numbered(m: usize) -> Result<Packet, Fail> {
    let mut bytes = [0u8; 188];
    for (i, byte) in bytes.iter_mut().enumerate() {
        *byte = (m.wrapping_add(i.wrapping_mul(7)) % 256) as u8;
    }
    bytes[0] = 0x47;
    Ok(Packet::read(&bytes)?)
}

/// So many packets, numbered from `first` on.
pub fn numbered_from(alloc: Global, first: usize, count: usize) -> Result<Vec<Packet>, Fail>
    ensures { IfOk result (λ packets. vec_len packets ≡ count) }
{
    let mut packets = Vec::new(alloc);
    for j in 0..count {
        packets.push(numbered(first.wrapping_add(j))?)?;
    }
    Ok(packets)
}

/// So many null packets.
pub fn null_packets(alloc: Global, count: usize) -> Result<Vec<Packet>, Fail>
    ensures { IfOk result (λ packets. vec_len packets ≡ count) }
{
    let mut packets = Vec::new(alloc);
    for _j in 0..count {
        packets.push(Packet::null())?;
    }
    Ok(packets)
}

/// How many ones there are, and the sum of their places modulo 65521.
fn sums_of(bits: &[bool]) -> (u64, u64) {
    let mut ones = 0u64;
    let mut places = 0u64;
    for (place, bit) in bits.iter().enumerate() {
        if *bit {
            ones = ones.wrapping_add(1);
            places = places.wrapping_add(place as u64);
        }
    }
    (ones, places % 65521)
}

/// Coded bits of a frame.
fn frame_bits(layer: &LayerSetting, mode: Mode) -> usize
    ensures { result ≡ 204 * layer_cells mode layer.now * cell_bits layer.now.modulation }
{
    let bits = bits_per_cell(layer.modulation());
    204 * layer.cells(mode) as usize * bits as usize
}

#[test]
fn first_bits_of_null_packets(rt: HostRuntime) -> Result<(), Fail> {
    let alloc = rt.alloc();
    let layer = LayerSetting::new(1, Modulation::Qpsk, Rate::R12, DepthCode::D0).ok_or("refused")?;
    let mut coder = CodedLayer::open(alloc, &layer, Mode::M1)?;
    let packets = null_packets(alloc, layer.packets(Mode::M1) as usize)?;
    let mut out = vec![in alloc; true; frame_bits(&layer, Mode::M1)]?;
    coder.frame(&packets, &mut out);
    assert_eq!(rt; out.len(), 39_168);
    assert_eq!(rt; out.iter().position(|bit| *bit), Some(3270));
    let next = [
        false, false, false, false, false, false, true, true, false, true, true, false, true,
        false, false, false,
    ];
    assert!(rt; out.get(3264..3280) == Some(next.as_slice()));
    Ok(())
}

/// The sums of the first three frames of numbered packets.
fn three_frames(alloc: Global, layer: &LayerSetting, mode: Mode) -> Result<[(u64, u64); 3], Fail> {
    let mut coder = CodedLayer::open(alloc, layer, mode)?;
    let count = layer.packets(mode) as usize;
    let mut out = vec![in alloc; false; frame_bits(layer, mode)]?;
    let mut sums = [(0, 0); 3];
    for frame in 0..3 {
        let packets = numbered_from(alloc, frame * count, count)?;
        coder.frame(&packets, &mut out);
        sums[frame] = sums_of(&out);
    }
    Ok(sums)
}

/// A layer, and the sums of its first three frames of coded bits.
#[derive(Clone, Copy)]
struct SumRow {
    mode: Mode,
    segments: u32,
    modulation: Modulation,
    rate: Rate,
    sums: [(u64, u64); 3],
}

const SUMS: [SumRow; 4] = [
    SumRow {
        mode: Mode::M1,
        segments: 1,
        modulation: Modulation::Qpsk,
        rate: Rate::R23,
        sums: [(7614, 22917), (19462, 39670), (19516, 51162)],
    },
    SumRow {
        mode: Mode::M1,
        segments: 1,
        modulation: Modulation::Qam16,
        rate: Rate::R34,
        sums: [(6774, 23558), (39056, 20505), (39117, 19104)],
    },
    SumRow {
        mode: Mode::M2,
        segments: 1,
        modulation: Modulation::Qpsk,
        rate: Rate::R56,
        sums: [(6005, 27442), (39096, 34264), (39029, 44799)],
    },
    SumRow {
        mode: Mode::M1,
        segments: 2,
        modulation: Modulation::Qam64,
        rate: Rate::R78,
        sums: [(5781, 60671), (117510, 23655), (117732, 43913)],
    },
];

#[test]
fn frames_of_an_independent_program(rt: HostRuntime) -> Result<(), Fail> {
    for row in SUMS.iter() {
        let layer = LayerSetting::new(row.segments, row.modulation, row.rate, DepthCode::D0).ok_or(
            "refused",
        )?;
        assert!(rt; three_frames(rt.alloc(), &layer, row.mode)? == row.sums);
    }
    Ok(())
}
