//! The receiver of an epoch for partial reception.

ghost use Rattle.std.specs.Prelude.{◌≡◌, ◌*◌, ◌≤◌, vec_len};
ghost use Rattle.isdbt_base.specs.Numbers.{layer_delay};
ghost use Rattle.layer_chain.specs.LayerDecoder.{mode_of as decoder_mode, layer_of as decoder_layer, packets_of as decoder_packets};

use cell_map::Cell;
use isdbt_base::{LayerSetting, Mode, NoMemory, zeros};
use layer_chain::LayerDecoder;
use std::alloc::Global;
use ts_packet::PACKET_BYTES;

/// Receiver of one epoch for partial reception: of layer A alone, which has segment 0 by itself.
///
/// It takes the cells of segment 0 symbol by symbol, and after each 204 gives the packets of layer A that are given out with
/// them: none in the first frames of the epoch, as many as the layer's delay. All memory is taken at `open`.
#[derive(Drop)]
pub struct PartialReceiver {
    decoder: LayerDecoder,
    /// The layer's delay in frames.
    delay: u32,
    /// The frames that were given out, at most the delay.
    frames: u32,
    /// Room for the packets of a frame that are not given out.
    passed: Vec<u8>,
    ghost delay_is: { delay ≡ layer_delay (decoder_mode decoder) (decoder_layer decoder) },
    ghost one_segment: { (decoder_layer decoder).segments ≡ 1 },
    ghost room: { vec_len passed ≡ 188 * decoder_packets decoder },
    ghost few_packets: { decoder_packets decoder ≤ 3276 },
    ghost few_frames: { frames ≤ delay },
}

impl PartialReceiver {
    ghost use Rattle.std.specs.Prelude.{◌≡◌, ℕ, ◌+◌, ◌*◌, ◌<◌, ◌≤◌, true, false, nat_le, IfOk, length};
    ghost use Rattle.isdbt_base.specs.Numbers.{carriers, layer_delay};
    ghost use Rattle.cell_map.specs.declared.cell.Cell.{Cell as SomeCell};
    ghost use Rattle.seg_receiver.specs.Received.{partial_packets};
    ghost use Rattle.seg_receiver.specs.PartialReceiver.{mode_of, layer_of, packets_of, symbols_of, AreSegmentCells, StandsFor};

    /// A receiver of an epoch that has seen no symbol, of a layer of one segment. Fails only if memory runs out.
    pub fn open(alloc: Global, a: &LayerSetting, mode: Mode) -> Result<PartialReceiver, NoMemory>
        requires { a.now.segments ≡ 1 }
        ensures mode { IfOk result (λ r. mode_of r ≡ mode) }
        ensures layer { IfOk result (λ r. layer_of r ≡ a.now) }
        ensures symbols { IfOk result (λ r. symbols_of r ≡ 0) }
        ensures state { IfOk result (λ r. (cell : ℕ → ℕ → ℕ → SomeCell) (start : ℕ) → StandsFor r cell start 0) }
    {
        let decoder = LayerDecoder::open(alloc, a, mode)?;
        let passed = zeros(alloc, PACKET_BYTES * a.packets(mode) as usize)?;
        Ok(PartialReceiver {
            decoder,
            delay: a.delay(mode),
            frames: 0,
            passed,
        })
    }

    /// Bytes of the packets of a frame.
    pub fn frame_bytes(&self) -> usize
        ensures value { result ≡ 188 * packets_of self.now }
        ensures most { result ≤ 615888 }
    {
        self.passed.len()
    }

    /// Takes the cells of segment 0 in the next symbol, by carrier; a frame has 204 symbols.
    pub fn symbol(&mut self, cells: &[Cell])
        requires size { length cells.now ≡ carriers (mode_of self.old) }
        requires few { symbols_of self.old < 204 }
        ensures state { (cell : ℕ → ℕ → ℕ → SomeCell) (start h : ℕ) → StandsFor self.old cell start h → AreSegmentCells (mode_of self.old) cell (start + h) (symbols_of self.old) cells.now → StandsFor self.new cell start h }
        ensures symbols { symbols_of self.new ≡ symbols_of self.old + 1 }
        ensures mode { mode_of self.new ≡ mode_of self.old }
        ensures layer { layer_of self.new ≡ layer_of self.old }
    {
        self.decoder.symbol(cells);
    }

    /// Gives out layer A's packets after a frame of cells, one behind the other, for which `out` has just the room. In the first
    /// frames of the epoch, as many as the layer's delay, it answers false and leaves `out` as it was.
    pub fn frame(&mut self, out: &mut [u8]) -> bool
        requires whole { symbols_of self.old ≡ 204 }
        requires room { length out.old ≡ 188 * packets_of self.old }
        ensures begun { (cell : ℕ → ℕ → ℕ → SomeCell) (start h : ℕ) → StandsFor self.old cell start h → result ≡ nat_le (layer_delay (mode_of self.old) (layer_of self.old)) h }
        ensures packets { (cell : ℕ → ℕ → ℕ → SomeCell) (start h : ℕ) → StandsFor self.old cell start h → result ≡ true → out.new ≡ partial_packets (mode_of self.old) (layer_of self.old) cell start h }
        ensures kept { result ≡ false → out.new ≡ out.old }
        ensures state { (cell : ℕ → ℕ → ℕ → SomeCell) (start h : ℕ) → StandsFor self.old cell start h → StandsFor self.new cell start (h + 1) }
        ensures symbols { symbols_of self.new ≡ 0 }
        ensures mode { mode_of self.new ≡ mode_of self.old }
        ensures layer { layer_of self.new ≡ layer_of self.old }
    {
        if self.frames < self.delay {
            self.frames += 1;
            self.decoder.take_frame(&mut self.passed);
            return false;
        }
        self.decoder.take_frame(out);
        true
    }
}
