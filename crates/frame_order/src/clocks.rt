//! The packets of a frame by the clocks at which they are complete.

ghost use Rattle.std.specs.Prelude.{◌≡◌, ℕ, ◌+◌, ◌-◌, ◌*◌, ◌/◌, ◌%◌, ◌<◌, ◌≤◌, ◌++◌, map, OnOk, IfOk, Some};
ghost use Rattle.std.specs.List.{range_with_len};
ghost use Rattle.isdbt_base.specs.Numbers.{packets_per_frame, layer_cells, symbol_clocks};
ghost use Rattle.frame_order.specs.Order.{cell_clock, last_cell, layer_marks};
ghost use Rattle.frame_order.specs.ClockOrder.{timed_in, timed_of, IsClockOrder};

use crate::mark::Mark;
use isdbt_base::{
    Guard, Layer, LayerSetting, Mode, NoMemory, Setting, bits_per_cell, rate_pair, symbol_clocks,
};
use std::alloc::Global;

/// A packet of a frame with its clock and its place.
#[derive(Clone, Copy, Debug, PartialEq, Eq)]
pub struct Timed {
    /// Clock of the frame at which the packet is complete, counted from 1.
    pub clock: u32,
    /// Place among the packets of all layers, in the order A, B, C.
    pub place: u32,
    /// The packet.
    pub mark: Mark,
}

/// The layer cell of the frame at which packet `index` is complete.
fn last_cell_of(layer: &LayerSetting, index: u32) -> u32
    requires { index < 4096 }
    ensures value { result ≡ last_cell layer.now index }
    ensures least { 1 ≤ result }
    ensures most { result ≤ 6684672 }
{
    let (steps, bits) = rate_pair(layer.rate());
    ((index + 1) * 1632 * bits).div_ceil(bits_per_cell(layer.modulation()) * steps)
}

/// The clock of layer cell `cell`, where `before` cells of other layers stand before the layer's in each symbol.
fn clock_of_cell(symbol: u32, cells: u32, before: u32, cell: u32) -> u32
    requires symbol { symbol ≤ 10240 }
    requires cells { 96 ≤ cells }
    requires before { before ≤ 9984 }
    requires first { 1 ≤ cell }
    requires last { cell ≤ 6684672 }
    ensures { result ≡ symbol * ((cell - 1) / cells) + before + (cell - 1) % cells + 1 }
{
    symbol * ((cell - 1) / cells) + before + (cell - 1) % cells + 1
}

/// Packet `index` of a layer, where so many cells and packets of other layers stand before the layer's.
fn timed_packet(
    mode: Mode,
    guard: Guard,
    layer: Layer,
    used: &LayerSetting,
    cells: u32,
    packets: u32,
    index: u32,
) -> Timed
    requires cells { cells ≤ 9984 }
    requires packets { packets ≤ 6552 }
    requires index { index < 4096 }
    ensures { result ≡ timed_in mode guard layer used.now cells packets index }
{
    Timed {
        clock: clock_of_cell(
            symbol_clocks(mode, guard),
            used.cells(mode),
            cells,
            last_cell_of(used, index),
        ),
        place: packets + index,
        mark: Mark { layer, index },
    }
}

/// Adds the packets of a layer that is used.
fn push_used(
    timed: &mut Vec<Timed>,
    mode: Mode,
    guard: Guard,
    layer: Layer,
    used: &LayerSetting,
    cells: u32,
    packets: u32,
) -> Result<(), NoMemory>
    requires cells { cells ≤ 9984 }
    requires packets { packets ≤ 6552 }
    ensures { OnOk result (timed.new.items ≡ timed.old.items
        ++ map (timed_in mode guard layer used.now cells packets) (range_with_len 0 (packets_per_frame mode used.now))) }
{
    for index in 0..used.packets(mode) {
        let packet = timed_packet(mode, guard, layer, used, cells, packets, index);
        timed.push(packet)?;
    }
    Ok(())
}

/// Adds the packets of a layer, if it is used.
fn push_layer(
    timed: &mut Vec<Timed>,
    setting: &Setting,
    mode: Mode,
    guard: Guard,
    layer: Layer,
) -> Result<(), NoMemory>
    ensures { OnOk result (timed.new.items ≡ timed.old.items ++ map (timed_of mode guard setting.now) (layer_marks mode setting.now layer)) }
{
    let cells = setting.cells_before(mode, layer);
    let packets = setting.packets_before(mode, layer);
    match setting.layer(layer) {
        Some(used) => push_used(timed, mode, guard, layer, &used, cells, packets),
        None => Ok(()),
    }
}

/// All packets of a frame, in the order of their clocks. Fails only if memory runs out.
pub fn in_clock_order(
    alloc: Global,
    setting: &Setting,
    mode: Mode,
    guard: Guard,
) -> Result<Vec<Timed>, NoMemory>
    ensures { IfOk result (λ v. IsClockOrder mode guard setting.now v.items) }
{
    setting.acceptance_law();
    let mut timed = Vec::new(alloc);
    push_layer(&mut timed, setting, mode, guard, Layer::A)?;
    push_layer(&mut timed, setting, mode, guard, Layer::B)?;
    push_layer(&mut timed, setting, mode, guard, Layer::C)?;
    timed.sort_unstable_by_key(|t| t.clock);
    Ok(timed)
}
