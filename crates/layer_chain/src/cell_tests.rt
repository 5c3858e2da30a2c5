//! Cells that are known: by hand, and sums of an independent program's.

ghost use Rattle.std.specs.Prelude.{◌≡◌, ◌*◌, ◌≤◌, IfOk, vec_len};
ghost use Rattle.isdbt_base.specs.Numbers.{layer_cells};

use crate::adjusted::Adjusted;
use crate::bit_deinterleaver::BitDeinterleaver;
use crate::bit_paths::BitPaths;
use crate::cell_numbers::number_cells;
use crate::tests::{null_packets, numbered_from};
use crate::{Held, LayerCoder, bit_partner_law};
use bit_inter::BitInter;
use cell_map::Cell;
use delay_line::{Stage, through};
use isdbt_base::{DepthCode, LayerSetting, Mode, Modulation, Rate};
use std::alloc::Global;
use std::test::Fail;
use time_inter::LayerInter;

const ZEROS: Cell = Cell { i: 1, q: 1 };

/// Cells of a frame.
pub fn frame_cells(layer: &LayerSetting, mode: Mode) -> usize
    ensures value { result ≡ 204 * layer_cells mode layer.now }
    ensures most { result ≤ 1018368 }
{
    204 * layer.cells(mode) as usize
}

#[test]
fn first_cells_of_one_layer(rt: HostRuntime) -> Result<(), Fail> {
    let alloc = rt.alloc();
    let layer = LayerSetting::new(13, Modulation::Qpsk, Rate::R12, DepthCode::D0).ok_or("refused")?;
    let mut coder = LayerCoder::open(alloc, &layer, Mode::M1)?;
    let packets = null_packets(alloc, layer.packets(Mode::M1) as usize)?;
    let mut out = vec![in alloc; Cell { i: 0, q: 0 }; frame_cells(&layer, Mode::M1)]?;
    coder.frame(&packets, &mut out);
    assert_eq!(rt; packets.len(), 156);
    assert_eq!(rt; out.len(), 254_592);
    let cell = |i, q| Cell { i, q };
    let next = [
        cell(1, 1),
        cell(1, 1),
        cell(1, 1),
        cell(-1, 1),
        cell(1, 1),
        cell(-1, 1),
        cell(-1, 1),
        cell(1, 1),
    ];
    assert!(rt; out.get(191 * 1248 + 648..191 * 1248 + 656) == Some(next.as_slice()));
    assert_eq!(rt;
        out.iter().position(|cell| *cell != ZEROS),
        Some(191 * 1248 + 651)
    );
    Ok(())
}

#[test]
fn held_items(rt: HostRuntime) -> Result<(), Fail> {
    let layer = LayerSetting::new(13, Modulation::Qpsk, Rate::R12, DepthCode::D3).ok_or("refused")?;
    let mut coder = LayerCoder::open(rt.alloc(), &layer, Mode::M1)?;
    let packets = null_packets(rt.alloc(), layer.packets(Mode::M1) as usize)?;
    let mut out = vec![in rt.alloc(); ZEROS; frame_cells(&layer, Mode::M1)]?;
    let wanted = Held {
        bytes: 30_702,
        bits: 4872,
        cells: 1_088_256,
    };
    assert_eq!(rt; coder.held(), wanted);
    coder.frame(&packets, &mut out);
    assert_eq!(rt; coder.held(), wanted, "after a frame");
    Ok(())
}

/// Passes the coded bits of a frame on, of a layer of one segment with QPSK in mode 1, to the numbers of its cells.
fn pass(bits: &mut BitPaths, cells: &mut Adjusted<LayerInter>, coded: &[bool], out: &mut [u8]) {
    let mut coded_numbers = [0u8; 19_584];
    let mut numbers = [0u8; 19_584];
    if coded.len() == 39_168 {
        number_cells(coded, 2, &mut coded_numbers);
    }
    if bits.late.len() == 19_584 && bits.lines.len() == 2 {
        bits.feed(&coded_numbers, &mut numbers);
    }
    if out.len() == 19_584 && cells.middle.len() == 19_584 && cells.stage.paths() == 96 {
        cells.feed(&numbers, out);
    }
}

/// The symbol, the place and the bits of the first cell that is not of zeros in two frames, where of all coded bits this
/// one alone is one: mode 1, one segment, QPSK and a length of 4 symbols.
fn place_of_bit(alloc: Global, coded: usize) -> Result<Option<(usize, usize, u8)>, Fail> {
    let layer = LayerSetting::new(1, Modulation::Qpsk, Rate::R12, DepthCode::D1).ok_or("refused")?;
    let mut bits = BitPaths::open(alloc, Modulation::Qpsk, 96, 19_584)?;
    let stage = LayerInter::open(alloc, &layer, Mode::M1)?;
    let mut cells = Adjusted::open(alloc, 28 * 96, stage, 19_584)?;
    let mut first = [false; 39_168];
    if let Some(bit) = first.get_mut(coded) {
        *bit = true;
    }
    let mut frames = [[0u8; 19_584]; 2];
    pass(&mut bits, &mut cells, &first, &mut frames[0]);
    pass(&mut bits, &mut cells, &[false; 39_168], &mut frames[1]);
    for (frame, numbers) in frames.iter().enumerate() {
        for (place, number) in numbers.iter().enumerate() {
            if *number != 0 {
                return Ok(Some((
                    frame.wrapping_mul(204).wrapping_add(place / 96),
                    place % 96,
                    *number,
                )));
            }
        }
    }
    Ok(None)
}

#[test]
fn places_of_two_bits(rt: HostRuntime) -> Result<(), Fail> {
    assert_eq!(rt; place_of_bit(rt.alloc(), 0)?, Some((316, 72, 0b10)));
    assert_eq!(rt; place_of_bit(rt.alloc(), 1)?, Some((30, 0, 0b01)));
    Ok(())
}

/// The sums of place times value over the cells, of each axis, modulo 65521.
fn sums_of(cells: &[Cell]) -> (i64, i64) {
    let mut i = 0i64;
    let mut q = 0i64;
    for (place, cell) in cells.iter().enumerate() {
        i = i.wrapping_add((place as i64).wrapping_mul(i64::from(cell.i)));
        q = q.wrapping_add((place as i64).wrapping_mul(i64::from(cell.q)));
    }
    (i.rem_euclid(65521), q.rem_euclid(65521))
}

/// The sums of the first three frames of numbered packets.
fn three_frames(alloc: Global, layer: &LayerSetting, mode: Mode) -> Result<[(i64, i64); 3], Fail> {
    let mut coder = LayerCoder::open(alloc, layer, mode)?;
    let count = layer.packets(mode) as usize;
    let mut out = vec![in alloc; ZEROS; frame_cells(layer, mode)]?;
    let mut sums = [(0, 0); 3];
    for frame in 0..3 {
        let packets = numbered_from(alloc, frame * count, count)?;
        coder.frame(&packets, &mut out);
        sums[frame] = sums_of(&out);
    }
    Ok(sums)
}

/// A layer, and the sums of its first three frames of cells.
#[derive(Clone, Copy)]
struct SumRow {
    mode: Mode,
    segments: u32,
    modulation: Modulation,
    rate: Rate,
    depth: DepthCode,
    sums: [(i64, i64); 3],
}

const SUMS: [SumRow; 4] = [
    SumRow {
        mode: Mode::M1,
        segments: 1,
        modulation: Modulation::Qam16,
        rate: Rate::R34,
        depth: DepthCode::D1,
        sums: [(36265, 10747), (42045, 29275), (19653, 16466)],
    },
    SumRow {
        mode: Mode::M1,
        segments: 2,
        modulation: Modulation::Qam64,
        rate: Rate::R78,
        depth: DepthCode::D0,
        sums: [(51614, 49508), (64901, 23114), (2038, 28771)],
    },
    SumRow {
        mode: Mode::M2,
        segments: 1,
        modulation: Modulation::Qpsk,
        rate: Rate::R56,
        depth: DepthCode::D1,
        sums: [(41931, 44885), (26025, 30430), (35830, 49651)],
    },
    SumRow {
        mode: Mode::M3,
        segments: 1,
        modulation: Modulation::Qam64,
        rate: Rate::R23,
        depth: DepthCode::D1,
        sums: [(55244, 55244), (13886, 59000), (8639, 54530)],
    },
];

#[test]
fn cells_of_an_independent_program(rt: HostRuntime) -> Result<(), Fail> {
    for row in SUMS.iter() {
        let layer = LayerSetting::new(row.segments, row.modulation, row.rate, row.depth).ok_or(
            "refused",
        )?;
        assert!(rt; three_frames(rt.alloc(), &layer, row.mode)? == row.sums);
    }
    Ok(())
}

/// A bit of a turn and a path.
fn bit_of(turn: usize, path: usize) -> bool {
    turn % 7 == path % 7 || turn % 5 == path % 5
}

/// What a bit deinterleaver gives at last of so many turns of 64QAM that the interleaver of the same modulation was fed.
fn last_of_pair(alloc: Global, turns: usize) -> Result<[bool; 6], Fail> {
    let mut sender = BitInter::<6>::open(alloc)?;
    let mut receiver = BitDeinterleaver::open(alloc, Modulation::Qam64)?;
    bit_partner_law(Modulation::Qam64);
    let mut middle = [false; 6];
    let mut bits = [false; 6];
    for turn in 0..turns {
        for path in 0..6 {
            bits[path] = bit_of(turn, path);
        }
        through(&mut sender, &mut receiver, &mut bits, &mut middle);
    }
    Ok(bits)
}

#[test]
fn bit_pair(rt: HostRuntime) -> Result<(), Fail> {
    assert_eq!(rt; last_of_pair(rt.alloc(), 120)?, [false; 6]);
    let bits = last_of_pair(rt.alloc(), 123)?;
    for (path, bit) in bits.iter().enumerate() {
        assert_eq!(rt; *bit, bit_of(2, path), "path {path}");
    }
    Ok(())
}
