//! Runs over the quiet shelf and sink, of which nothing fails.

ghost use Rattle.std.specs.Prelude.{◌≡◌, false, Some};
ghost use Rattle.edge_io.specs.declared.shelf.Seat.{Seat as Place};
ghost use Rattle.edge_io.specs.QuietShelf.{content_of, is_seat_open};
ghost use Rattle.isdbt_cli.specs.CommandLines.{Command, Spells};
ghost use Rattle.isdbt_cli.specs.Run.{RefusesNone, IsDoneOrNoMemory};

use crate::fault::Outcome;
use crate::run::run;
use crate::testing::{marked_packets, words_of};
use crate::words::Words;
use edge_io::{QuietShelf, QuietSink, Seat};
use std::alloc::Global;
use std::test::Fail;

/// Runs words over the quiet forms. Where no frame is refused, all frames are written or memory is wanting.
fn run_quietly(alloc: Global, words: &Words, shelf: &mut QuietShelf, out: &mut QuietSink) -> Outcome
    requires { (seat : Place) → is_seat_open shelf.old seat ≡ false }
    ensures { (c : Command) → Spells words.now c → RefusesNone c (λ name. Some (content_of shelf.old name)) → IsDoneOrNoMemory result }
{
    run(alloc, words, shelf, out, &mut QuietSink::new())
}

/// Runs a single layer of thirteen segments over an input, which `name` holds, and every other name nothing: how it ended, and how
/// many bytes were written.
fn run_single(alloc: Global, input: &[u8], name: &str) -> Result<(Outcome, u64), Fail> {
    let mut shelf = QuietShelf::new(alloc);
    shelf.put(name, input)?;
    let words = words_of(alloc, &["remux", "1", "1/4", "A:13:qpsk:1/2:0", "A=a"])?;
    let mut out = QuietSink::new();
    let outcome = run_quietly(alloc, &words, &mut shelf, &mut out);
    Ok((outcome, out.count()))
}

#[test]
fn empty_input(rt: HostRuntime) -> Result<(), Fail> {
    let alloc = rt.alloc();
    let packet = marked_packets(alloc, 188, 0x55)?;
    // The input, its name, and how many frames are written.
    let rows = [
        (&[] as &[u8], "a", 0),
        (packet.as_slice(), "b", 0),
        (packet.as_slice(), "a", 3),
    ];
    for (input, name, frames) in rows {
        let (outcome, bytes) = run_single(alloc, input, name)?;
        assert_eq!(rt; outcome, Outcome::Done(frames));
        assert_eq!(rt; bytes, u64::from(frames) * 261_120);
    }
    Ok(())
}
