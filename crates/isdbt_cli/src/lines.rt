//! The line that a fault writes to standard error. No memory is taken for it.

ghost use Rattle.std.specs.Prelude.{◌≡◌, ◌+◌, ◌≤◌, ◌∷◌, [], ◌++◌, length, codes, decimal};
ghost use Rattle.arrayvec.specs.ArrayString.{array_string_len};
ghost use Rattle.isdbt_cli.specs.Lines.{seat_text, layer_letter, reason_text, line_of, IsTold};

use crate::fault::{Outcome, RunFault};
use arrayvec::ArrayString;
use edge_io::{Failed, Seat, Sink, write_whole};
use isdbt_base::Layer;
use itoa::Buffer;
use tmcc_word::TmccFault;

/// A line with its line feed.
type Line = ArrayString<112>;

/// The letter of a seat.
fn seat_text(seat: Seat) -> &'static str
    ensures value { result.now ≡ seat_text seat }
    ensures short { length result.now ≤ 2 }
{
    match seat {
        Seat::A => "A",
        Seat::B => "B",
        Seat::C => "C",
        Seat::In => "IN",
    }
}

/// The letter of a layer.
fn layer_letter(layer: Layer) -> &'static str
    ensures value { result.now ≡ layer_letter layer }
    ensures short { length result.now ≤ 1 }
{
    match layer {
        Layer::A => "A",
        Layer::B => "B",
        Layer::C => "C",
    }
}

/// A text alone.
fn text_line(text: &str) -> Line
    requires { length text.now ≤ 40 }
    ensures { result.bytes ≡ text.now ++ 10 ∷ [] }
{
    let mut line = Line::new();
    line.push_str(text);
    line.push('\n');
    line
}

/// A text and a number.
fn number_line(text: &str, number: u64) -> Line
    requires { length text.now ≤ 40 }
    ensures { result.bytes ≡ text.now ++ decimal number ++ 10 ∷ [] }
{
    let mut line = Line::new();
    line.push_str(text);
    line.push_str(Buffer::new().format(number));
    line.push('\n');
    line
}

/// A text and a seat.
fn seat_line(text: &str, seat: Seat) -> Line
    requires { length text.now ≤ 40 }
    ensures { result.bytes ≡ text.now ++ seat_text seat ++ 10 ∷ [] }
{
    let mut line = Line::new();
    line.push_str(text);
    line.push_str(seat_text(seat));
    line.push('\n');
    line
}

/// A text, a seat, a text and a number.
fn packet_line(text: &str, seat: Seat, middle: &str, number: u64) -> Line
    requires text { length text.now ≤ 40 }
    requires middle { length middle.now ≤ 10 }
    ensures { result.bytes ≡ text.now ++ seat_text seat ++ middle.now ++ decimal number ++ 10 ∷ [] }
{
    let mut line = Line::new();
    line.push_str(text);
    line.push_str(seat_text(seat));
    line.push_str(middle);
    line.push_str(Buffer::new().format(number));
    line.push('\n');
    line
}

/// A text, a number, a text and a number.
fn slot_line(text: &str, frame: u32, middle: &str, slot: u32) -> Line
    requires text { length text.now ≤ 40 }
    requires middle { length middle.now ≤ 10 }
    ensures { result.bytes ≡ text.now ++ decimal frame ++ middle.now ++ decimal slot ++ 10 ∷ [] }
{
    let mut line = Line::new();
    line.push_str(text);
    line.push_str(Buffer::new().format(frame));
    line.push_str(middle);
    line.push_str(Buffer::new().format(slot));
    line.push('\n');
    line
}

/// A text, a number, ` layer ` and its letter, ` found ` and a number.
fn count_line(text: &str, frame: u32, layer: Layer, found: u32) -> Line
    requires { length text.now ≤ 40 }
    ensures { result.bytes ≡ text.now ++ decimal frame ++ codes " layer " ++ layer_letter layer ++ codes " found " ++ decimal found ++ 10 ∷ [] }
{
    let mut line = Line::new();
    line.push_str(text);
    line.push_str(Buffer::new().format(frame));
    line.push_str(" layer ");
    line.push_str(layer_letter(layer));
    line.push_str(" found ");
    line.push_str(Buffer::new().format(found));
    line.push('\n');
    line
}

/// A text, a number and a text.
fn word_line(text: &str, frame: u32, behind: &str) -> Line
    requires text { length text.now ≤ 40 }
    requires behind { length behind.now ≤ 20 }
    ensures { result.bytes ≡ text.now ++ decimal frame ++ behind.now ++ 10 ∷ [] }
{
    let mut line = Line::new();
    line.push_str(text);
    line.push_str(Buffer::new().format(frame));
    line.push_str(behind);
    line.push('\n');
    line
}

/// A text, a number, a text and the letter of a layer.
fn letter_line(text: &str, frame: u32, middle: &str, layer: Layer) -> Line
    requires text { length text.now ≤ 40 }
    requires middle { length middle.now ≤ 10 }
    ensures { result.bytes ≡ text.now ++ decimal frame ++ middle.now ++ layer_letter layer ++ 10 ∷ [] }
{
    let mut line = Line::new();
    line.push_str(text);
    line.push_str(Buffer::new().format(frame));
    line.push_str(middle);
    line.push_str(layer_letter(layer));
    line.push('\n');
    line
}

/// A text, a number, a blank and why a TMCC word is refused.
fn reason_line(text: &str, frame: u32, reason: TmccFault) -> Line
    requires { length text.now ≤ 40 }
    ensures { result.bytes ≡ text.now ++ decimal frame ++ codes " " ++ reason_text reason ++ 10 ∷ [] }
{
    match reason {
        TmccFault::Sync => word_line(text, frame, " sync"),
        TmccFault::SegmentType => word_line(text, frame, " segment type"),
        TmccFault::Parity => word_line(text, frame, " parity"),
        TmccFault::System => word_line(text, frame, " system"),
        TmccFault::LayerField(layer) => letter_line(text, frame, " layer ", layer),
        TmccFault::Segments(sum) => slot_line(text, frame, " segments ", sum),
    }
}

/// The line of an outcome: a fault's, or nothing where the command is done.
fn line_of(outcome: &Outcome) -> Line
    ensures { result.bytes ≡ line_of outcome.now }
{
    let fault = match *outcome {
        Outcome::Done(_) => return Line::new(),
        Outcome::Fault(fault) => fault,
    };
    match fault {
        RunFault::Usage { word } => number_line("isdbt: 1 usage: word ", word),
        RunFault::BadSync { seat, packet } => {
            packet_line("isdbt: 2 no sync byte: input ", seat, " packet ", packet)
        }
        RunFault::Truncated { seat, over } => {
            packet_line(
                "isdbt: 3 truncated: input ",
                seat,
                " over ",
                u64::from(over),
            )
        }
        RunFault::HeadMisplaced { frame, slot } => slot_line(
            "isdbt: 4 frame head misplaced: frame ",
            frame,
            " slot ",
            slot,
        ),
        RunFault::NoHead => text_line("isdbt: 5 no frame head"),
        RunFault::WrongCount {
            frame,
            layer,
            found,
        } => count_line("isdbt: 6 wrong count: frame ", frame, layer, found),
        RunFault::BadTmcc { frame, reason } => reason_line("isdbt: 7 tmcc: frame ", frame, reason),
        RunFault::Unannounced { frame } => number_line(
            "isdbt: 8 unannounced setting: frame ",
            u64::from(frame),
        ),
        RunFault::NotPartial { frame } => number_line(
            "isdbt: 9 no partial reception: frame ",
            u64::from(frame),
        ),
        RunFault::OpenFault(seat) => seat_line("isdbt: 10 cannot open: ", seat),
        RunFault::ReadFault(seat) => seat_line("isdbt: 11 read fault: ", seat),
        RunFault::WriteFault => text_line("isdbt: 12 write fault"),
        RunFault::TooLong => text_line("isdbt: 13 too long"),
        RunFault::NoMemory => text_line("isdbt: 14 no memory"),
        RunFault::BadHead { frame, byte } => slot_line(
            "isdbt: 15 bad frame head: frame ",
            frame,
            " byte ",
            u32::from(byte),
        ),
    }
}

/// Writes the line of an outcome. Where a write fails the rest is left out.
pub fn write_line<E: Sink>(outcome: &Outcome, err: &mut E)
    ensures told { IsTold (line_of outcome.now) (E.written err.old) (E.written err.new) (E.faults err.old) (E.faults err.new) }
    ensures room { E.room err.new ≡ E.room err.old }
{
    let line = line_of(outcome);
    match write_whole(err, line.as_str().as_bytes()) {
        Ok(()) => {}
        Err(Failed) => {}
    }
}
