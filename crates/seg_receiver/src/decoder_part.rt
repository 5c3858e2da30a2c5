//! The decoder of a layer that may be unused.

ghost use Rattle.std.specs.Prelude.{◌≡◌, ℕ, ◌*◌, vec_len, IfOk};
ghost use Rattle.isdbt_base.specs.Parameters.{number_of};
ghost use Rattle.isdbt_base.specs.Numbers.{packets_per_frame};
ghost use Rattle.seg_receiver.specs.CellStream.{FrameCells};
ghost use Rattle.seg_receiver.specs.UsedDecoders.{IsDecoderOf, DecoderStandsFor, HasCells, HasSymbolLeft, HasRoom, HasFrame, TakesIfUsed, GivesIfUsed};

use cell_map::Cell;
use isdbt_base::{LayerSetting, Mode, NoMemory, packets_of};
use layer_chain::LayerDecoder;
use std::alloc::Global;
use ts_packet::PACKET_BYTES;

/// Decoder of a layer for one epoch, with room for the bytes of a frame's packets, or nothing where the layer is unused: it
/// has no cells and no packets then.
#[derive(Drop)]
pub struct DecoderPart {
    mode: Mode,
    layer: Option<LayerSetting>,
    decoder: Option<LayerDecoder>,
    /// The symbols since the last frame was given out.
    symbols: u32,
    /// The packets of a frame, 188 bytes each.
    bytes: Vec<u8>,
    ghost fits: { IsDecoderOf mode layer symbols decoder },
    ghost byte_room: { vec_len bytes ≡ 188 * number_of (packets_per_frame mode) layer },
}

impl DecoderPart {
    ghost use Rattle.std.specs.Prelude.{◌≡◌, ℕ, ◌+◌, ◌%◌, ◌<◌, IfOk, length};
    ghost use Rattle.seg_receiver.specs.CellStream.{FrameCells};
    ghost use Rattle.seg_receiver.specs.UsedDecoders.{AreCellsFrom};
    ghost use Rattle.seg_receiver.specs.DecoderPart.{cells_of, PartStandsFor, HasPacketsOf};

    /// A decoder that has seen no symbol. Fails only if memory runs out.
    pub fn open(
        alloc: Global,
        layer: Option<LayerSetting>,
        mode: Mode,
    ) -> Result<DecoderPart, NoMemory>
        ensures mode { IfOk result (λ p. p.mode ≡ mode) }
        ensures layer { IfOk result (λ p. p.layer ≡ layer) }
        ensures symbols { IfOk result (λ p. p.symbols ≡ 0) }
        ensures state { IfOk result (λ p. (cell : FrameCells) (start first : ℕ) → PartStandsFor p cell start first 0) }
    {
        let decoder = open_used(alloc, &layer, mode)?;
        let bytes = vec![in alloc; 0; PACKET_BYTES * packets_of(&layer, mode) as usize]?;
        Ok(DecoderPart {
            mode,
            layer,
            decoder,
            symbols: 0,
            bytes,
        })
    }

    /// Takes the layer's cells of the next symbol, in the order of its places: none where the layer is unused.
    pub fn symbol(&mut self, cells: &[Cell])
        requires size { length cells.now ≡ cells_of self.old }
        requires few { self.old.symbols < 204 }
        ensures state { (cell : FrameCells) (start first h : ℕ) → PartStandsFor self.old cell start first h
            → AreCellsFrom self.old.mode cell first (start + h) self.old.symbols cells.now → PartStandsFor self.new cell start first h }
        ensures symbols { self.new.symbols ≡ self.old.symbols + 1 }
        ensures mode { self.new.mode ≡ self.old.mode }
        ensures layer { self.new.layer ≡ self.old.layer }
    {
        take_symbol(&mut self.decoder, cells);
        self.symbols += 1;
    }

    /// Takes the packets that are given out with a frame, after its 204 symbols.
    pub fn take_frame(&mut self)
        requires whole { self.old.symbols ≡ 204 }
        ensures packets { (cell : FrameCells) (start first h : ℕ) → PartStandsFor self.old cell start first h → HasPacketsOf self.new cell start first h }
        ensures state { (cell : FrameCells) (start first h : ℕ) → PartStandsFor self.old cell start first h → PartStandsFor self.new cell start first (h + 1) }
        ensures symbols { self.new.symbols ≡ 0 }
        ensures mode { self.new.mode ≡ self.old.mode }
        ensures layer { self.new.layer ≡ self.old.layer }
    {
        take_packets(&mut self.decoder, &mut self.bytes);
        self.symbols = 0;
    }

    /// The bytes of the packets that were taken last, one packet behind the other.
    pub fn bytes(&self) -> &[u8]
        ensures value { result.now ≡ self.now.bytes.items }
        ensures whole { length result.now % 188 ≡ 0 }
    {
        &self.bytes
    }
}

/// The decoder of a layer, if it is used.
fn open_used(
    alloc: Global,
    layer: &Option<LayerSetting>,
    mode: Mode,
) -> Result<Option<LayerDecoder>, NoMemory>
    ensures fits { IfOk result (λ decoder. IsDecoderOf mode layer.now 0 decoder) }
    ensures state { IfOk result (λ decoder. (cell : FrameCells) (start first : ℕ) → DecoderStandsFor mode layer.now decoder cell start first 0) }
{
    match layer {
        Some(used) => {
            let decoder = LayerDecoder::open(alloc, used, mode)?;
            Ok(Some(decoder))
        }
        None => Ok(None),
    }
}

/// Takes the cells of a symbol, where the layer is used.
fn take_symbol(decoder: &mut Option<LayerDecoder>, cells: &[Cell])
    requires size { HasCells decoder.old cells.now }
    requires few { HasSymbolLeft decoder.old }
    ensures { TakesIfUsed decoder.old cells.now decoder.new }
{
    match decoder {
        Some(used) => used.symbol(cells),
        None => {}
    }
}

/// Takes the packets of a frame, where the layer is used.
fn take_packets(decoder: &mut Option<LayerDecoder>, bytes: &mut [u8])
    requires size { HasRoom decoder.old bytes.old }
    requires whole { HasFrame decoder.old }
    ensures { GivesIfUsed decoder.old decoder.new bytes.new }
{
    match decoder {
        Some(used) => used.take_frame(bytes),
        None => {}
    }
}
