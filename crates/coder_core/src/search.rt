//! The search for the first frame head.

ghost use Rattle.std.specs.Prelude.{◌≡◌, ℕ, List, ◌-◌, ◌*◌, ◌≤◌, ◌<◌, Some, true, length, take, drop, min, IfOk, IfSome};
ghost use Rattle.edge_io.specs.declared.shelf.Seat.TheVariants as seats;
ghost use Rattle.coder_core.specs.CodeRefusals.{packet_refusal};
ghost use Rattle.edge_io.specs.FrameAnswers.{frame_refused, ReadingCause};
ghost use Rattle.coder_core.specs.Answers.{code_kind, SearchAnswer};

use crate::check::bears_head;
use crate::fault::CodeFault;
use edge_io::{Failed, Seat, Shelf, ends, fill_behind};
use isdbt_base::BROADCAST_BYTES;
use ts_packet::SYNC;

/// The packets in which the first head is looked for.
const SEARCHED: u32 = 65_536;

/// Why a packet of the search is refused, of which so many bytes came.
fn packet_fault(packet: &[u8], count: usize, number: u32) -> Option<CodeFault>
    requires size { length packet.now ≡ 204 }
    requires most { count ≤ 204 }
    ensures refusal { (input : List ℕ) → number < 65536 → 0 < count → count ≡ min 204 (length input - 204 * number) → take count packet.now ≡ take count (drop (204 * number) input)
        → result ≡ packet_refusal input number }
    ensures kind { IfSome result (λ fault. code_kind fault ≡ frame_refused) }
{
    if count < BROADCAST_BYTES {
        Some(CodeFault::Truncated {
            seat: Seat::In,
            over: count as u32,
        })
    } else if packet[0] != SYNC {
        Some(CodeFault::BadSync {
            seat: Seat::In,
            packet: u64::from(number),
        })
    } else {
        None
    }
}

/// Reads packets up to the first that bears the frame head flag, into `packet`, and answers its number, or None of an
/// empty input.
pub fn find_head<H: Shelf>(shelf: &mut H, packet: &mut [u8]) -> Result<Option<u32>, CodeFault>
    requires is_open { H.is_open shelf.old seats.In ≡ true }
    requires size { length packet.old ≡ 204 }
    ensures still_open { H.is_open shelf.new ≡ H.is_open shelf.old }
    ensures within { IfOk result (λ found. IfSome found (λ head. head < 65536)) }
    ensures answer { (input : List ℕ) → H.left shelf.old seats.In ≡ Some input → SearchAnswer input packet.new (H.left shelf.new seats.In) result }
    ensures cause { ReadingCause code_kind (H.faults shelf.old) (H.faults shelf.new) result }
{
    for number in 0..SEARCHED {
        let count = match fill_behind(shelf, Seat::In, 0, packet) {
            Ok(count) => count,
            Err(Failed) => return Err(CodeFault::ReadFault(Seat::In)),
        };
        if count == 0 {
            return if number == 0 {
                Ok(None)
            } else {
                Err(CodeFault::NoHead)
            };
        }
        match packet_fault(packet, count, number) {
            Some(fault) => return Err(fault),
            None => {}
        }
        if bears_head(packet, 0) {
            return Ok(Some(number));
        }
    }
    match ends(shelf, Seat::In) {
        Ok(true) => Err(CodeFault::NoHead),
        Ok(false) => Err(CodeFault::TooLong),
        Err(Failed) => Err(CodeFault::ReadFault(Seat::In)),
    }
}
