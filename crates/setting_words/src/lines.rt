//! The lines that list the frames of a stream, one for each frame.

ghost use Rattle.std.specs.Prelude.{◌≡◌, ◌≤◌, length};
ghost use Rattle.setting_words.specs.Lines.{parity_text, frame_text, bts_line, next_text, restored_text, cells_line};

use crate::writing::{SettingWord, setting_word};
use arrayvec::ArrayString;
use isdbt_base::{Mode, Setting};
use itoa::Buffer;

/// A line with its line feed. The longest line that the calls of this crate make fits.
pub type Line = ArrayString<192>;

/// What a frame of broadcast packets shows.
#[derive(Clone, Copy, Debug)]
pub struct BtsLine {
    /// The frame's number.
    pub frame: u32,
    /// Its frame indicator.
    pub odd: bool,
    /// Its countdown.
    pub countdown: u8,
    /// Slots of layer A.
    pub a: u32,
    /// Slots of layer B.
    pub b: u32,
    /// Slots of layer C.
    pub c: u32,
    /// The other slots.
    pub unused: u32,
}

/// What a frame of cells shows.
#[derive(Clone, Copy, Debug)]
pub struct CellsLine {
    /// The frame's number.
    pub frame: u32,
    /// Whether its TMCC word has the sync word of odd frames.
    pub odd: bool,
    /// Its countdown.
    pub countdown: u8,
    /// Its mode, in whose time interleaving lengths both settings are written.
    pub mode: Mode,
    /// Its setting.
    pub now: Setting,
    /// The setting after the next switch, if one is announced.
    pub next: Option<Setting>,
    /// How many bits of its TMCC word were restored, where words are corrected.
    pub restored: Option<u32>,
}

/// The text of a frame's parity.
fn parity_text(odd: bool) -> &'static str
    ensures value { result.now ≡ parity_text odd }
    ensures short { length result.now ≤ 5 }
{
    if odd { " odd" } else { " even" }
}

/// What begins both lines.
fn frame_text(frame: u32, odd: bool, countdown: u8) -> Line
    ensures value { result.bytes ≡ frame_text frame odd countdown }
    ensures short { length result.bytes ≤ 35 }
{
    let mut line = Line::new();
    line.push_str("frame ");
    line.push_str(Buffer::new().format(frame));
    line.push_str(parity_text(odd));
    line.push_str(" countdown ");
    line.push_str(Buffer::new().format(countdown));
    line
}

/// The line of a frame of broadcast packets.
pub fn bts_line(shown: &BtsLine) -> Line
    ensures { result.bytes ≡ bts_line shown.now }
{
    let mut line = frame_text(shown.frame, shown.odd, shown.countdown);
    line.push_str(" A ");
    line.push_str(Buffer::new().format(shown.a));
    line.push_str(" B ");
    line.push_str(Buffer::new().format(shown.b));
    line.push_str(" C ");
    line.push_str(Buffer::new().format(shown.c));
    line.push_str(" none ");
    line.push_str(Buffer::new().format(shown.unused));
    line.push('\n');
    line
}

/// The word of the next setting, and a dash where none is announced.
fn next_text(mode: Mode, next: &Option<Setting>) -> SettingWord
    ensures value { result.bytes ≡ next_text mode next.now }
    ensures short { length result.bytes ≤ 61 }
{
    match next {
        Some(setting) => setting_word(mode, setting),
        None => {
            let mut word = SettingWord::new();
            word.push('-');
            word
        }
    }
}

/// What stands behind the settings where words are corrected: how many bits were restored.
fn restored_text(restored: Option<u32>) -> ArrayString<20>
    ensures value { result.bytes ≡ restored_text restored }
    ensures short { length result.bytes ≤ 20 }
{
    let mut text = ArrayString::new();
    if let Some(count) = restored {
        text.push_str(" restored ");
        text.push_str(Buffer::new().format(count));
    }
    text
}

/// The line of a frame of cells.
pub fn cells_line(shown: &CellsLine) -> Line
    ensures { result.bytes ≡ cells_line shown.entry.now }
{
    let mut line = frame_text(shown.frame, shown.odd, shown.countdown);
    line.push_str(" now ");
    line.push_str(setting_word(shown.mode, &shown.now).as_str());
    line.push_str(" next ");
    line.push_str(next_text(shown.mode, &shown.next).as_str());
    line.push_str(restored_text(shown.restored).as_str());
    line.push('\n');
    line
}
