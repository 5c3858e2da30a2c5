//! The receiver of an epoch.

ghost use Rattle.std.specs.Prelude.{◌≡◌};
ghost use Rattle.isdbt_base.specs.declared.kinds.Layer.TheVariants.{A, B, C};
ghost use Rattle.isdbt_base.specs.Parameters.{layer_of};

use crate::decoder_part::DecoderPart;
use crate::layer_cells::layer_part;
use bts_info::FrameTag;
use cell_map::Cell;
use frame_order::{FrameOrder, LayerPackets, order};
use isdbt_base::{BROADCAST_BYTES, Guard, Layer, Mode, NoMemory, Setting, slots};
use std::alloc::Global;
use ts_packet::Packet;

/// Receiver of one epoch, for up to three layers: the decoder of each used layer, and the order of the packets of a
/// frame.
///
/// It takes an epoch's symbols one by one, and after each 204 gives the frame of broadcast packets that is given out
/// with them. All memory is taken at `open`.
#[derive(Drop)]
pub struct Receiver {
    setting: Setting,
    mode: Mode,
    guard: Guard,
    /// The symbols since the last frame was given out.
    symbols: u32,
    order: FrameOrder,
    a: DecoderPart,
    b: DecoderPart,
    c: DecoderPart,
    ghost order_mode: { order.mode ≡ mode },
    ghost order_guard: { order.guard ≡ guard },
    ghost order_setting: { order.setting ≡ setting },
    ghost a_mode: { a.mode ≡ mode },
    ghost b_mode: { b.mode ≡ mode },
    ghost c_mode: { c.mode ≡ mode },
    ghost a_layer: { a.layer ≡ layer_of setting A },
    ghost b_layer: { b.layer ≡ layer_of setting B },
    ghost c_layer: { c.layer ≡ layer_of setting C },
    ghost a_symbols: { a.symbols ≡ symbols },
    ghost b_symbols: { b.symbols ≡ symbols },
    ghost c_symbols: { c.symbols ≡ symbols },
}

impl Receiver {
    ghost use Rattle.std.specs.Prelude.{◌≡◌, ℕ, ◌+◌, ◌*◌, ◌<◌, ◌≤◌, IfOk, length};
    ghost use Rattle.isdbt_base.specs.Numbers.{carriers, slots_per_frame};
    ghost use Rattle.isdbt_base.specs.Parameters.{layer_of};
    ghost use Rattle.ts_packet.specs.Packets.{null_packet};
    ghost use Rattle.frame_order.specs.OrderedFrame.{ordered_frame};
    ghost use Rattle.seg_receiver.specs.CellStream.{FrameCells};
    ghost use Rattle.seg_receiver.specs.Received.{setting_packet};
    ghost use Rattle.seg_receiver.specs.Receiver.{mode_of, guard_of, setting_of, symbols_of, IsSymbolOf, StandsFor};

    /// A receiver of an epoch that has seen no symbol. Fails only if memory runs out.
    pub fn open(
        alloc: Global,
        setting: &Setting,
        mode: Mode,
        guard: Guard,
    ) -> Result<Receiver, NoMemory>
        ensures mode { IfOk result (λ r. mode_of r ≡ mode) }
        ensures guard { IfOk result (λ r. guard_of r ≡ guard) }
        ensures setting { IfOk result (λ r. setting_of r ≡ setting.now) }
        ensures symbols { IfOk result (λ r. symbols_of r ≡ 0) }
        ensures state { IfOk result (λ r. (cell : FrameCells) (start : ℕ) → StandsFor r cell start 0) }
    {
        let order = order(alloc, setting, mode, guard)?;
        let a = DecoderPart::open(alloc, setting.layer(Layer::A), mode)?;
        let b = DecoderPart::open(alloc, setting.layer(Layer::B), mode)?;
        let c = DecoderPart::open(alloc, setting.layer(Layer::C), mode)?;
        Ok(Receiver {
            setting: *setting,
            mode,
            guard,
            symbols: 0,
            order,
            a,
            b,
            c,
        })
    }

    /// Bytes of a frame of broadcast packets.
    pub fn frame_bytes(&self) -> usize
        ensures value { result ≡ 204 * slots_per_frame (mode_of self.now) (guard_of self.now) }
        ensures most { result ≤ 1044480 }
    {
        BROADCAST_BYTES * slots(self.mode, self.guard) as usize
    }

    /// Takes the cells of the next symbol, by segment and then by carrier; a frame has 204 symbols.
    pub fn symbol(&mut self, cells: &[Cell])
        requires size { length cells.now ≡ 13 * carriers (mode_of self.old) }
        requires few { symbols_of self.old < 204 }
        ensures state { (cell : FrameCells) (start h : ℕ) → StandsFor self.old cell start h → IsSymbolOf 13 (mode_of self.old) cell (start + h) (symbols_of self.old) cells.now → StandsFor self.new cell start h }
        ensures symbols { symbols_of self.new ≡ symbols_of self.old + 1 }
        ensures mode { mode_of self.new ≡ mode_of self.old }
        ensures guard { guard_of self.new ≡ guard_of self.old }
        ensures setting { setting_of self.new ≡ setting_of self.old }
    {
        let a = layer_part(&self.setting, self.mode, Layer::A, cells);
        let b = layer_part(&self.setting, self.mode, Layer::B, cells);
        let c = layer_part(&self.setting, self.mode, Layer::C, cells);
        self.a.symbol(a);
        self.b.symbol(b);
        self.c.symbol(c);
        self.symbols += 1;
    }

    /// Writes the frame of broadcast packets that is given out after a frame of cells, whose packets bear the tag: 204 bytes
    /// for each slot, for which `out` has just the room.
    pub fn frame(&mut self, tag: &FrameTag, out: &mut [u8])
        requires whole { symbols_of self.old ≡ 204 }
        requires room { length out.old ≡ 204 * slots_per_frame (mode_of self.old) (guard_of self.old) }
        ensures frame { (cell : FrameCells) (start h : ℕ) → StandsFor self.old cell start h
            → out.new ≡ ordered_frame (mode_of self.old) (guard_of self.old) (setting_of self.old) tag.now null_packet (λ x j. setting_packet (mode_of self.old) cell start (start + h) (setting_of self.old) x j (layer_of (setting_of self.old) x)) }
        ensures state { (cell : FrameCells) (start h : ℕ) → StandsFor self.old cell start h → StandsFor self.new cell start (h + 1) }
        ensures symbols { symbols_of self.new ≡ 0 }
        ensures mode { mode_of self.new ≡ mode_of self.old }
        ensures guard { guard_of self.new ≡ guard_of self.old }
        ensures setting { setting_of self.new ≡ setting_of self.old }
    {
        self.a.take_frame();
        self.b.take_frame();
        self.c.take_frame();
        self.symbols = 0;
        let packets = LayerPackets {
            a: self.a.bytes(),
            b: self.b.bytes(),
            c: self.c.bytes(),
        };
        self.order.write(tag, &Packet::null(), &packets, out);
    }
}
