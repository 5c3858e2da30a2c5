//! The text of a sample.

ghost use Rattle.std.specs.Prelude.{◌≡◌, ◌≤◌, length};
ghost use Rattle.isdbt_base.specs.declared.kinds.Layer.TheVariants.{A, B};
ghost use Rattle.sample.specs.SampleInputs.{input_packets};
ghost use Rattle.sample.specs.Lines.{tally_line, tallies_text};

use crate::counting::Tally;
use crate::inputs::{A_PACKETS, B_PACKETS};
use crate::plan::FRAMES;
use arrayvec::ArrayString;
use itoa::Buffer;

/// The three lines of a text.
pub type Text = ArrayString<256>;

/// The line of a layer, by its letter, the count of its input packets and what was counted.
fn tally_line(letter: &str, sent: u32, tally: &Tally) -> Text
    requires { length letter.now ≤ 1 }
    ensures value { result.bytes ≡ tally_line letter.now sent tally.now }
    ensures short { length result.bytes ≤ 70 }
{
    let mut line = Text::new();
    line.push_str(letter);
    line.push_str(" sent ");
    line.push_str(Buffer::new().format(sent));
    line.push_str(" met ");
    line.push_str(Buffer::new().format(tally.met));
    line.push_str(" marked ");
    line.push_str(Buffer::new().format(tally.marked));
    line.push_str(" sum ");
    line.push_str(Buffer::new().format(tally.sum));
    line.push('\n');
    line
}

/// The text of what was counted of layers A and B.
pub fn text_of(a: &Tally, b: &Tally) -> Text
    ensures { result.bytes ≡ tallies_text a.now b.now }
{
    let mut text = Text::new();
    text.push_str("frames ");
    text.push_str(Buffer::new().format(FRAMES));
    text.push('\n');
    text.push_str(tally_line("A", A_PACKETS, a).as_str());
    text.push_str(tally_line("B", B_PACKETS, b).as_str());
    text
}
