//! Packets that come back from the cells of a layer.

ghost use Rattle.std.specs.Prelude.{◌≡◌, ◌+◌, ◌*◌, ◌<◌, ◌≤◌, ◌^◌, length};
ghost use Rattle.isdbt_base.specs.declared.kinds.Rate.TheVariants.{R12};
ghost use Rattle.isdbt_base.specs.declared.kinds.Mode.TheVariants.{M1};
ghost use Rattle.conv_punct.specs.StandsFor.{rate_of};
ghost use Rattle.layer_chain.specs.LayerDecoder.{mode_of, layer_of, cells_of, packets_of, symbols_of};

use crate::cell_tests::frame_cells;
use crate::tests::{null_packets, numbered_from};
use crate::{Held, LayerCoder, LayerDecoder};
use bit_inter::BitInter;
use byte_inter::ByteInter;
use cell_map::{Cell, cell_of};
use conv_punct::Encoder;
use delay_line::{Line, Stage};
use energy_prbs::Prbs;
use gf_rs::Rs;
use isdbt_base::{DepthCode, LayerSetting, Mode, Modulation, Rate, put};
use std::alloc::Global;
use std::test::Fail;
use ts_packet::Packet;

#[test]
fn held_items_of_a_decoder(rt: HostRuntime) -> Result<(), Fail> {
    let layer = LayerSetting::new(13, Modulation::Qpsk, Rate::R12, DepthCode::D3).ok_or("refused")?;
    let mut decoder = LayerDecoder::open(rt.alloc(), &layer, Mode::M1)?;
    let cells = vec![in rt.alloc(); Cell { i: 1, q: 1 }; frame_cells(&layer, Mode::M1)]?;
    let mut out = vec![in rt.alloc(); 0; 188 * layer.packets(Mode::M1) as usize]?;
    let wanted = Held {
        bytes: 1122,
        bits: 120,
        cells: 948_480,
    };
    assert_eq!(rt; decoder.held(), wanted);
    receive_frame(&mut decoder, &cells, &mut out);
    assert_eq!(rt; decoder.held(), wanted, "after a frame");
    Ok(())
}

/// Where the cells of a symbol begin, of so many each.
fn symbol_start(k: usize, width: usize) -> usize
    requires symbol { k < 204 }
    requires few { width ≤ 2 ^ 32 }
    ensures { result + width ≤ 204 * width }
{
    k * width
}

/// Receives the cells of a frame, and writes the packets that are given out with it.
fn receive_frame(decoder: &mut LayerDecoder, cells: &[Cell], out: &mut [u8])
    requires fresh { symbols_of decoder.old ≡ 0 }
    requires cells { length cells.now ≡ 204 * cells_of decoder.old }
    requires room { length out.old ≡ 188 * packets_of decoder.old }
    requires few { length cells.now ≤ 2 ^ 32 }
    ensures fresh { symbols_of decoder.new ≡ 0 }
    ensures mode { mode_of decoder.new ≡ mode_of decoder.old }
    ensures layer { layer_of decoder.new ≡ layer_of decoder.old }
{
    let width = cells.len() / 204;
    for k in 0..204 {
        let start = symbol_start(k, width);
        decoder.symbol(&cells[start..start + width]);
    }
    decoder.take_frame(out);
}

/// The coder of a layer by the public calls of the crates below alone: mode 1, one segment, QPSK, 1/2, and no time
/// interleaving, which neither moves a cell nor adjusts then.
#[derive(Drop)]
struct Parts {
    bytes: Line<u8>,
    byte_interleaver: ByteInter<12, 17>,
    encoder: Encoder,
    bits: Line<bool>,
    bit_interleaver: BitInter<2>,
    ghost half: { rate_of encoder ≡ R12 },
}

/// The delay adjustments: of 12 packets less 11, and of two symbols of 96 cells less 120, in bits.
fn open_parts(alloc: Global) -> Result<Parts, Fail> {
    let bytes = Line::open(alloc, 204 * (12 - 11), 0)?;
    let byte_interleaver = ByteInter::open(alloc)?;
    let bits = Line::open(alloc, 2 * (2 * 96 - 120), false)?;
    let bit_interleaver = BitInter::open(alloc)?;
    Ok(Parts {
        bytes,
        byte_interleaver,
        encoder: Encoder::start(Rate::R12),
        bits,
        bit_interleaver,
    })
}

/// The unit of a null packet, with so many wrong bytes at its front.
fn null_unit(prbs: &mut Prbs, wrong: usize) -> [u8; 204] {
    let null = Packet::null();
    let mut parity = [0u8; 16];
    Rs::<16>::parity(null.bytes(), &mut parity);
    let mut unit = [0x47u8; 204];
    let at = put(&mut unit, 0, &null.bytes()[1..]);
    put(&mut unit, at, &parity);
    prbs.disperse(&mut unit);
    for byte in unit.iter_mut().take(wrong) {
        *byte ^= 0xFF;
    }
    unit
}

/// The units of a frame of null packets.
fn null_units(wrong: usize) -> [u8; 2448] {
    let mut prbs = Prbs::start();
    let mut units = [0u8; 2448];
    for j in 0..12usize {
        put(&mut units, 204 * j, &null_unit(&mut prbs, wrong));
    }
    units
}

/// The cells of a frame of null packets whose units have so many wrong bytes at their front.
fn spoiled_frame(parts: &mut Parts, wrong: usize, cells: &mut [Cell]) {
    let units = null_units(wrong);
    let mut late = [0u8; 2448];
    parts.bytes.feed(&units, &mut late);
    let mut placed = [0u8; 2448];
    parts.byte_interleaver.feed(&late, &mut placed);
    let mut coded = [false; 39_168];
    parts.encoder.feed(&placed, &mut coded);
    let mut late = [false; 39_168];
    parts.bits.feed(&coded, &mut late);
    let mut pairs = [false; 39_168];
    parts.bit_interleaver.feed(&late, &mut pairs);
    for place in 0..cells.len().min(19_584) {
        let bits = 2 * u8::from(pairs[2 * place]) + u8::from(pairs[2 * place + 1]);
        cells[place] = cell_of(Modulation::Qpsk, bits);
    }
}

/// The bytes of the packets that are given out with the third of three frames of null packets, of which the units of the
/// first have so many wrong bytes at their front.
fn third_frame(alloc: Global, wrong: usize) -> Result<Vec<u8>, Fail> {
    let layer = LayerSetting::new(1, Modulation::Qpsk, Rate::R12, DepthCode::D0).ok_or("refused")?;
    let mut parts = open_parts(alloc)?;
    let mut decoder = LayerDecoder::open(alloc, &layer, Mode::M1)?;
    let mut cells = vec![in alloc; Cell { i: 0, q: 0 }; frame_cells(&layer, Mode::M1)]?;
    let mut out = vec![in alloc; 0; 188 * layer.packets(Mode::M1) as usize]?;
    spoiled_frame(&mut parts, wrong, &mut cells);
    receive_frame(&mut decoder, &cells, &mut out);
    spoiled_frame(&mut parts, 0, &mut cells);
    receive_frame(&mut decoder, &cells, &mut out);
    spoiled_frame(&mut parts, 0, &mut cells);
    receive_frame(&mut decoder, &cells, &mut out);
    Ok(out)
}

#[test]
fn eight_wrong_bytes_in_each_unit(rt: HostRuntime) -> Result<(), Fail> {
    let packets = third_frame(rt.alloc(), 8)?;
    assert_eq!(rt; packets.len(), 12 * 188);
    for packet in packets.chunks_exact(188) {
        assert!(rt; packet == Packet::null().bytes());
    }
    Ok(())
}

/// The first nine bytes that are sent of a null packet are bytes 1 to 9 of it.
#[test]
fn nine_wrong_bytes_in_each_unit(rt: HostRuntime) -> Result<(), Fail> {
    let packets = third_frame(rt.alloc(), 9)?;
    assert_eq!(rt; packets.len(), 12 * 188);
    for packet in packets.chunks_exact(188) {
        let front = [0x47, 0xE0, 0, 0xEF, 0, 0, 0, 0, 0, 0];
        assert!(rt; packet.get(..10) == Some(front.as_slice()));
        assert!(rt; packet.get(10..) == Some([0xFF; 178].as_slice()));
    }
    Ok(())
}

/// A layer whose packets come back, and the frames to look at.
#[derive(Clone, Copy)]
struct LayerRow {
    mode: Mode,
    segments: u32,
    modulation: Modulation,
    rate: Rate,
    depth: DepthCode,
    frames: usize,
}

/// The packets that are to be given out with a frame: numbered ones as many frames late as the delay, null packets before.
fn wanted_packets(
    alloc: Global,
    frame: usize,
    delay: usize,
    count: usize,
) -> Result<Vec<Packet>, Fail> {
    if frame < delay {
        null_packets(alloc, count)
    } else {
        numbered_from(alloc, (frame - delay).wrapping_mul(count), count)
    }
}

/// Whether numbered packets of a layer come back.
fn come_back(alloc: Global, layer: &LayerSetting, mode: Mode, frames: usize) -> Result<bool, Fail> {
    let count = layer.packets(mode) as usize;
    let delay = layer.delay(mode) as usize;
    let mut coder = LayerCoder::open(alloc, layer, mode)?;
    let mut decoder = LayerDecoder::open(alloc, layer, mode)?;
    let mut cells = vec![in alloc; Cell { i: 0, q: 0 }; frame_cells(layer, mode)]?;
    let mut out = vec![in alloc; 0; 188 * count]?;
    for frame in 0..frames {
        coder.frame(
            &numbered_from(alloc, frame.wrapping_mul(count), count)?,
            &mut cells,
        );
        receive_frame(&mut decoder, &cells, &mut out);
        let wanted = wanted_packets(alloc, frame, delay, count)?;
        if !out
            .chunks_exact(188)
            .zip(wanted.iter())
            .all(|(bytes, packet)| bytes == packet.bytes())
        {
            return Ok(false);
        }
    }
    Ok(true)
}

#[test]
fn numbered_packets_come_back(rt: HostRuntime) -> Result<(), Fail> {
    let row = |mode, segments, modulation, rate, depth, frames| LayerRow {
        mode,
        segments,
        modulation,
        rate,
        depth,
        frames,
    };
    let rows = [
        row(Mode::M1, 1, Modulation::Qpsk, Rate::R12, DepthCode::D0, 4),
        row(Mode::M1, 1, Modulation::Qam16, Rate::R34, DepthCode::D1, 6),
        row(Mode::M2, 2, Modulation::Qam64, Rate::R78, DepthCode::D1, 5),
        row(Mode::M3, 1, Modulation::Qpsk, Rate::R56, DepthCode::D2, 4),
        row(Mode::M1, 1, Modulation::Qam64, Rate::R23, DepthCode::D3, 12),
    ];
    for row in rows {
        let layer = LayerSetting::new(row.segments, row.modulation, row.rate, row.depth).ok_or(
            "refused",
        )?;
        assert!(rt; come_back(rt.alloc(), &layer, row.mode, row.frames)?);
    }
    Ok(())
}
