//! The cells that `code` writes against those of the second coder, for twelve settings of all kinds, alone and one behind the
//! other, and known values of its parts.

use crate::commands::{ROOM, code_plan, coded, remuxed, whole};
use crate::model_rows::{CellRow, DEEP_LAYERS, MODE_2, MODE_3, SHALLOW};
use crate::plans::{LayerRow, SwitchRow, plan_with};
use crate::streams::check;
use edge_io::MemorySink;
use isdbt_base::{DepthCode, Modulation, Rate, Writing};
use model_coder::{
    Difference, LayerScale, OuterCode, Scale, add_layer, coded_bits, dispersal, first_difference,
    layer_packets,
};
use std::alloc::Global;
use std::process::Abort;
use std::test::Fail;

/// So many packets of mixed bytes.
fn mixed_packets(alloc: Global, count: usize, seed: u64) -> Result<Vec<u8>, Fail> {
    let mut bytes = Vec::new(alloc);
    let mut state = seed;
    for place in 0..count.wrapping_mul(188) {
        state = state
            .wrapping_mul(6_364_136_223_846_793_005)
            .wrapping_add(1_442_695_040_888_963_407);
        let byte = (state / 72_057_594_037_927_936) as u8;
        bytes.push(if place % 188 == 0 { 0x47 } else { byte })?;
    }
    Ok(bytes)
}

/// The bits of a cell.
fn bits_of(modulation: Modulation) -> usize {
    match modulation {
        Modulation::Qpsk => 2,
        Modulation::Qam16 => 4,
        Modulation::Qam64 => 6,
    }
}

/// The steps of an inner rate.
fn steps_of(rate: Rate) -> usize {
    match rate {
        Rate::R12 => 1,
        Rate::R23 => 2,
        Rate::R34 => 3,
        Rate::R56 => 5,
        Rate::R78 => 7,
    }
}

/// The time interleaving length in mode 3, of which mode 2 has twice as many symbols, and mode 1 four times.
fn length_of(depth: DepthCode) -> usize {
    match depth {
        DepthCode::D0 => 0,
        DepthCode::D1 => 1,
        DepthCode::D2 => 2,
        DepthCode::D3 => 4,
    }
}

/// The second coder's numbers of a layer.
fn layer_scale(row: &LayerRow, carriers: usize) -> LayerScale {
    LayerScale {
        segments: row.segments as usize,
        bits: bits_of(row.modulation),
        steps: steps_of(row.rate),
        length: length_of(row.depth).wrapping_mul(384usize.checked_div(carriers).unwrap_or(0)),
    }
}

/// The numbers of a row's layer, of no segments where it isn't used.
fn scale_of(row: &CellRow, layer: usize) -> Scale {
    let mut first = 0usize;
    for before in row.plan.layers.iter().take(layer) {
        first = first.wrapping_add(before.segments as usize);
    }
    let unused = LayerScale {
        segments: 0,
        bits: 2,
        steps: 1,
        length: 0,
    };
    Scale {
        carriers: row.carriers,
        frames: row.frames,
        first,
        layer: match row.plan.layers.get(layer) {
            Some(layer) => layer_scale(layer, row.carriers),
            None => unused,
        },
    }
}

/// Packets of a row's layer: for all frames but a few packets.
fn input_of(alloc: Global, row: &CellRow, layer: usize) -> Result<Vec<u8>, Fail> {
    let count = scale_of(row, layer)
        .frame_packets()
        .wrapping_mul(row.frames)
        .saturating_sub(layer.wrapping_mul(5));
    mixed_packets(alloc, count, (layer as u64).wrapping_add(7))
}

/// The broadcast packets of a row's frames that are coded.
fn stream_of(alloc: Global, row: &CellRow) -> Result<Vec<u8>, Fail> {
    let a = input_of(alloc, row, 0)?;
    let b = input_of(alloc, row, 1)?;
    let c = input_of(alloc, row, 2)?;
    let (_, stream) = remuxed(alloc, &row.plan, [&a, &b, &c])?;
    let len = row.slots.wrapping_mul(204).wrapping_mul(row.frames);
    let front = stream.bytes().get(..len).unwrap_or(&[]);
    Ok(front.to_vec(alloc)?)
}

/// The cells of all layers by the closed formulas.
fn model_cells(alloc: Global, row: &CellRow, stream: &[u8]) -> Result<Vec<u8>, Fail> {
    let count = row.carriers.wrapping_mul(13).wrapping_mul(204);
    let mut cells = vec![in alloc; 0; count.wrapping_mul(row.frames)]?;
    for (layer, indicator) in [(0, 1), (1, 2), (2, 3)] {
        let packets = layer_packets(alloc, stream, indicator)?;
        add_layer(alloc, &packets, &scale_of(row, layer), &mut cells)?;
    }
    Ok(cells)
}

/// Bytes of the cells of a row's frames.
fn size_of(row: &CellRow) -> usize {
    let symbol = row.carriers.wrapping_mul(26).wrapping_add(1);
    symbol.wrapping_mul(204).wrapping_mul(row.frames)
}

/// The first difference in each layer between the cells of a row's stream by the closed formulas and those written, and how
/// many cells are not of zero bits.
fn differences(
    alloc: Global,
    row: &CellRow,
    stream: &[u8],
    written: &[u8],
) -> Result<([Option<Difference>; 3], usize), Fail> {
    let cells = model_cells(alloc, row, stream)?;
    let found = |layer| first_difference(&scale_of(row, layer), &cells, written);
    let others = cells.iter().filter(|cell| **cell != 0).count();
    Ok(([found(0), found(1), found(2)], others))
}

/// Compares the cells of a row's stream with those written, of which some are not of zero bits.
fn check_cells(
    rt: &impl Abort,
    alloc: Global,
    row: &CellRow,
    stream: &[u8],
    written: &[u8],
) -> Result<(), Fail> {
    check(rt, written.len() == size_of(row));
    let (found, others) = differences(alloc, row, stream, written)?;
    check(rt, found == [None, None, None]);
    check(rt, others > 20_000);
    Ok(())
}

/// Compares the cells of rows.
fn compare(rt: &impl Abort, alloc: Global, rows: &[CellRow]) -> Result<(), Fail> {
    for row in rows {
        let stream = stream_of(alloc, row)?;
        let (frames, out) = coded(alloc, &row.plan, &stream)?;
        check(rt, frames as usize == row.frames);
        check_cells(rt, alloc, row, &stream, out.bytes())?;
    }
    Ok(())
}

/// The head of a row's frames: mode 1 has 96 data carriers a segment, and a frame of it without guard intervals 1024 slots.
fn head_of(row: &CellRow) -> [u8; 8] {
    let mode = match row.carriers {
        96 => 1,
        192 => 2,
        _ => 3,
    };
    let useful = row.carriers.wrapping_mul(32) / 3;
    let guard = useful.checked_div(row.slots.wrapping_sub(useful));
    let part = (guard.unwrap_or(0) % 256) as u8;
    [0x49, 0x53, 0x43, 0x32, mode, part, 0, 0]
}

/// The symbols of a row's frames in version 2, whose heads are checked.
fn without_heads(
    rt: &impl Abort,
    alloc: Global,
    row: &CellRow,
    written: &[u8],
) -> Result<Vec<u8>, Fail> {
    let size = size_of(row).checked_div(row.frames).unwrap_or(0);
    let mut symbols = Vec::new(alloc);
    for frame in written.chunks(size.wrapping_add(8).max(8)) {
        check(rt, frame.starts_with(&head_of(row)));
        symbols.extend_from_slice(frame.get(8..).unwrap_or(&[]))?;
    }
    Ok(symbols)
}

/// Compares the cells of two rows' frames, coded in version 2 one row behind the other by a plan that switches between them:
/// each row's frames have the cells that they have alone, and its own heads.
fn compare_over_a_switch(
    rt: &impl Abort,
    alloc: Global,
    first: &CellRow,
    second: &CellRow,
) -> Result<(), Fail> {
    let front = stream_of(alloc, first)?;
    let back = stream_of(alloc, second)?;
    let switch = SwitchRow {
        frame: u32::try_from(first.frames)?,
        to: second.plan,
    };
    let plan = plan_with(&first.plan, &[switch])?;
    let mut stream = front.as_slice().to_vec(alloc)?;
    stream.extend_from_slice(&back)?;
    let out = MemorySink::new(alloc, ROOM)?;
    let ended = code_plan(alloc, &plan, Writing { v2: true }, &whole(&stream), out)?;
    let frames = ended.answer? as usize;
    check(rt, frames == first.frames.wrapping_add(second.frames));
    let size = size_of(first).wrapping_add(first.frames.wrapping_mul(8));
    let Some((before, behind)) = ended.out.bytes().split_at_checked(size) else {
        return Err(Fail::from("too few cells"));
    };
    let before = without_heads(rt, alloc, first, before)?;
    let behind = without_heads(rt, alloc, second, behind)?;
    check_cells(rt, alloc, first, &front, &before)?;
    check_cells(rt, alloc, second, &back, &behind)
}

/// In one mode, from mode 2 to 3, and from mode 2 to 1.
#[test]
fn cells_over_switches(rt: HostRuntime) -> Result<(), Fail> {
    let alloc = rt.alloc();
    compare_over_a_switch(&rt, alloc, &SHALLOW[1], &SHALLOW[3])?;
    compare_over_a_switch(&rt, alloc, &MODE_2[0], &MODE_3[0])?;
    compare_over_a_switch(&rt, alloc, &MODE_2[2], &SHALLOW[0])
}

#[test]
fn cells_of_twelve_settings_shallow(rt: HostRuntime) -> Result<(), Fail> {
    compare(&rt, rt.alloc(), &SHALLOW)
}

#[test]
fn cells_of_twelve_settings_deep(rt: HostRuntime) -> Result<(), Fail> {
    compare(&rt, rt.alloc(), &DEEP_LAYERS)
}

#[test]
fn cells_of_twelve_settings_mode_2(rt: HostRuntime) -> Result<(), Fail> {
    compare(&rt, rt.alloc(), &MODE_2)
}

#[test]
fn cells_of_twelve_settings_mode_3(rt: HostRuntime) -> Result<(), Fail> {
    compare(&rt, rt.alloc(), &MODE_3)
}

/// Known values of the dispersal sequence, of the parity of a packet and of coded bits.
#[test]
fn known_pieces(rt: HostRuntime) -> Result<(), Fail> {
    let alloc = rt.alloc();
    let sequence = dispersal(alloc, 204)?;
    check(&rt, sequence.starts_with(&[0x03, 0xF6, 0x08, 0x34]));
    check(&rt, sequence.get(203) == Some(&0xD2));
    let mut message = vec![in alloc; 0; 187]?;
    message.push(1)?;
    let parity = [
        0x3B, 0x0D, 0x68, 0xBD, 0x44, 0xD1, 0x1E, 0x08, 0xA3, 0x41, 0x29, 0xE5, 0x62, 0x32, 0x24,
        0x3B,
    ];
    let found = OuterCode::new(alloc)?.parity(alloc, &message)?;
    check(&rt, found.as_slice() == parity.as_slice());
    let inputs = [0, 0, 0, 0, 0, 0, 1, 0, 0, 0, 0, 0, 0];
    let half = coded_bits(alloc, &inputs, 1, 7)?;
    let bits = [1, 1, 1, 0, 1, 1, 1, 1, 0, 0, 0, 1, 1, 1];
    check(&rt, half.as_slice() == bits.as_slice());
    let most = coded_bits(alloc, &inputs, 7, 1)?;
    let bits = [1, 1, 0, 1, 1, 0, 1, 1];
    check(&rt, most.as_slice() == bits.as_slice());
    Ok(())
}
