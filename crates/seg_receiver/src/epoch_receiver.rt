//! The receiver of an epoch, in full or for partial reception.

ghost use Rattle.std.specs.Prelude.{◌≡◌, ℕ, ◌+◌, ◌*◌, ◌<◌, ◌≤◌, Bool, true, IfOk, length, take};
ghost use Rattle.isdbt_base.specs.declared.kinds.Mode.{Mode as SomeMode};
ghost use Rattle.isdbt_base.specs.declared.kinds.Guard.{Guard as SomeGuard};
ghost use Rattle.isdbt_base.specs.Numbers.{carriers};
ghost use Rattle.isdbt_base.specs.Parameters.{Parameters};
ghost use Rattle.seg_receiver.specs.CellStream.{FrameCells};
ghost use Rattle.seg_receiver.specs.Receiver.{IsSymbolOf};
ghost use Rattle.seg_receiver.specs.EpochReceiver.{mode_of, segments_of, symbols_of, frame_room, IsReceiverOf, StandsFor, epoch_frame};

use crate::partial_receiver::PartialReceiver;
use crate::receiver::Receiver;
use bts_info::FrameTag;
use cell_map::Cell;
use isdbt_base::{Guard, Mode, NoMemory, Setting};
use std::alloc::Global;

/// Receiver of one epoch.
#[derive(Drop)]
pub enum EpochReceiver {
    /// Of all layers, from the cells of 13 segments.
    Full(Receiver),
    /// Of layer A alone, from the cells of segment 0.
    Partial(PartialReceiver),
}

/// The receiver of an epoch, for partial reception or in full, that has seen no symbol. Fails only if memory runs out.
pub fn open_receiver(
    alloc: Global,
    partial: bool,
    setting: &Setting,
    mode: Mode,
    guard: Guard,
) -> Result<EpochReceiver, NoMemory>
    requires { partial ≡ true → setting.now.partial ≡ true }
    ensures receiver { IfOk result (IsReceiverOf partial mode guard setting.now) }
    ensures symbols { IfOk result (λ r. symbols_of r ≡ 0) }
    ensures state { IfOk result (λ r. (cell : FrameCells) (start : ℕ) → StandsFor r cell start 0) }
{
    if !partial {
        let receiver = Receiver::open(alloc, setting, mode, guard)?;
        return Ok(EpochReceiver::Full(receiver));
    }
    setting.acceptance_law();
    let receiver = PartialReceiver::open(alloc, &setting.a(), mode)?;
    Ok(EpochReceiver::Partial(receiver))
}

/// The segments whose cells a receiver takes: the first, or all.
pub fn segments(receiver: &EpochReceiver) -> usize
    ensures value { result ≡ segments_of receiver.now }
    ensures most { result ≤ 13 }
{
    match receiver {
        EpochReceiver::Full(_) => 13,
        EpochReceiver::Partial(_) => 1,
    }
}

/// Takes the cells of the next symbol, by segment and then by carrier; a frame has 204 symbols.
pub fn take_symbol(receiver: &mut EpochReceiver, cells: &[Cell])
    requires size { length cells.now ≡ segments_of receiver.old * carriers (mode_of receiver.old) }
    requires few { symbols_of receiver.old < 204 }
    ensures state { (cell : FrameCells) (start h : ℕ) → StandsFor receiver.old cell start h
        → IsSymbolOf (segments_of receiver.old) (mode_of receiver.old) cell (start + h) (symbols_of receiver.old) cells.now → StandsFor receiver.new cell start h }
    ensures symbols { symbols_of receiver.new ≡ symbols_of receiver.old + 1 }
    ensures mode { mode_of receiver.new ≡ mode_of receiver.old }
    ensures segments { segments_of receiver.new ≡ segments_of receiver.old }
    ensures kept { (partial : Bool) (mode : SomeMode) (guard : SomeGuard) (s : Parameters) → IsReceiverOf partial mode guard s receiver.old → IsReceiverOf partial mode guard s receiver.new }
{
    match receiver {
        EpochReceiver::Full(full) => full.symbol(cells),
        EpochReceiver::Partial(part) => part.symbol(cells),
    }
}

/// Puts what is given out after a frame of cells at the front of a buffer, and answers how many bytes these are: a frame of
/// broadcast packets with this tag, or the packets of layer A, none in the first frames of the epoch.
pub fn put_frame(receiver: &mut EpochReceiver, tag: &FrameTag, out: &mut [u8]) -> usize
    requires whole { symbols_of receiver.old ≡ 204 }
    requires room { frame_room receiver.old ≤ length out.old }
    ensures most { result ≤ length out.new }
    ensures given { (partial : Bool) (mode : SomeMode) (guard : SomeGuard) (s : Parameters) (cell : FrameCells) (start h : ℕ) → IsReceiverOf partial mode guard s receiver.old
        → StandsFor receiver.old cell start h → take result out.new ≡ epoch_frame partial mode guard s cell start h tag.now }
    ensures state { (cell : FrameCells) (start h : ℕ) → StandsFor receiver.old cell start h → StandsFor receiver.new cell start (h + 1) }
    ensures symbols { symbols_of receiver.new ≡ 0 }
    ensures kept { (partial : Bool) (mode : SomeMode) (guard : SomeGuard) (s : Parameters) → IsReceiverOf partial mode guard s receiver.old → IsReceiverOf partial mode guard s receiver.new }
{
    match receiver {
        EpochReceiver::Full(full) => {
            let size = full.frame_bytes();
            full.frame(tag, &mut out[..size]);
            size
        }
        EpochReceiver::Partial(part) => {
            let size = part.frame_bytes();
            if part.frame(&mut out[..size]) {
                size
            } else {
                0
            }
        }
    }
}
