//! Why a frame is refused for its packets.

ghost use Rattle.std.specs.Prelude.{◌≡◌, ◌≤◌, ◌<◌, ◌^◌, ℕ, List, None, vec_len, IfSome};
ghost use Rattle.isdbt_base.specs.declared.kinds.Layer.{Layer as Which};
ghost use Rattle.isdbt_base.specs.Plans.{Schedule};
ghost use Rattle.remux_core.specs.Multiplex.{filled, placed_before};
ghost use Rattle.remux_core.specs.PacketFaults.{cut_fault, sync_fault, OfPackets};
ghost use Rattle.remux_core.specs.Parts.{Says};
ghost use Rattle.remux_core.specs.Reading.{input_of, IsRead, AreGood};
ghost use Rattle.remux_core.specs.Refusals.{refusal};

use crate::fault::RemuxFault;
use crate::inputs::Inputs;
use crate::packets::{Part, check_packets};
use edge_io::Seat;

/// The cut of an unfinished packet.
fn cut_fault(seat: Seat, part: Part) -> Option<RemuxFault>
    ensures { result ≡ cut_fault seat part }
{
    match part {
        Part::Cut(over) => Some(RemuxFault::Truncated { seat, over }),
        _ => None,
    }
}

/// The first packet without sync byte, where so many packets of the input stand before the part.
fn sync_fault(seat: Seat, first: u64, part: Part) -> Option<RemuxFault>
    requires { first ≤ 2 ^ 40 }
    ensures { result ≡ sync_fault seat first part }
{
    match part {
        Part::NoSync(index) => Some(RemuxFault::BadSync {
            seat,
            packet: first + u64::from(index),
        }),
        _ => None,
    }
}

/// Why the frame in work is refused for the packets that were read for it: first an unfinished packet, then one without
/// sync byte.
pub fn fault_of(inputs: &Inputs) -> Option<RemuxFault>
    requires room_a { vec_len inputs.now.a.bytes ≤ 615888 }
    requires room_b { vec_len inputs.now.b.bytes ≤ 615888 }
    requires room_c { vec_len inputs.now.c.bytes ≤ 615888 }
    requires first_a { inputs.now.a.first ≤ 2 ^ 40 }
    requires first_b { inputs.now.b.first ≤ 2 ^ 40 }
    requires first_c { inputs.now.c.first ≤ 2 ^ 40 }
    ensures refusal { (p : Schedule) (input : Which → List ℕ) (limit f : ℕ) → f < limit
        → ((x : Which) → (input_of inputs.now x).first ≡ placed_before p x f)
        → ((x : Which) → IsRead (placed_before p x f) (filled p x f) (input x) (input_of inputs.now x))
        → result ≡ refusal p input limit f }
    ensures kind { IfSome result OfPackets }
    ensures good { result ≡ None → AreGood inputs.now }
{
    let a = check_packets(inputs.a.part());
    let b = check_packets(inputs.b.part());
    let c = check_packets(inputs.c.part());
    cut_fault(Seat::A, a)
        .or(cut_fault(Seat::B, b))
        .or(cut_fault(Seat::C, c))
        .or(sync_fault(Seat::A, inputs.a.first, a))
        .or(sync_fault(Seat::B, inputs.b.first, b))
        .or(sync_fault(Seat::C, inputs.c.first, c))
}
