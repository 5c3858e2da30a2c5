//! The word of a setting, written.

ghost use Rattle.std.specs.Prelude.{◌≡◌, ◌≤◌, ◌++◌, length};
ghost use Rattle.setting_words.specs.SettingWords.{modulation_text, rate_text, layer_text, partial_text, other_layer_text, setting_word};

use arrayvec::ArrayString;
use isdbt_base::{Layer, LayerSetting, Mode, Modulation, Rate, Setting, depth_of};
use itoa::Buffer;

/// The word of a setting: at most 61 bytes.
pub type SettingWord = ArrayString<64>;

/// The text of a layer.
type LayerText = ArrayString<32>;

/// The text of a carrier modulation.
fn modulation_text(modulation: Modulation) -> &'static str
    ensures value { result.now ≡ modulation_text modulation }
    ensures short { length result.now ≤ 5 }
{
    match modulation {
        Modulation::Qpsk => "qpsk",
        Modulation::Qam16 => "16qam",
        Modulation::Qam64 => "64qam",
    }
}

/// The text of an inner code rate.
fn rate_text(rate: Rate) -> &'static str
    ensures value { result.now ≡ rate_text rate }
    ensures short { length result.now ≤ 3 }
{
    match rate {
        Rate::R12 => "1/2",
        Rate::R23 => "2/3",
        Rate::R34 => "3/4",
        Rate::R56 => "5/6",
        Rate::R78 => "7/8",
    }
}

/// The fields of a layer.
fn layer_text(mode: Mode, layer: &LayerSetting) -> LayerText
    ensures value { result.bytes ≡ layer_text mode layer.now }
    ensures short { length result.bytes ≤ 15 }
{
    let mut text = LayerText::new();
    text.push_str(Buffer::new().format(layer.segments()));
    text.push_str(":");
    text.push_str(modulation_text(layer.modulation()));
    text.push_str(":");
    text.push_str(rate_text(layer.rate()));
    text.push_str(":");
    text.push_str(Buffer::new().format(depth_of(mode, layer.depth())));
    text
}

/// Layer B or C behind a comma, with its name, or nothing where it is unused.
fn other_layer_text(mode: Mode, name: &str, layer: &Option<LayerSetting>) -> LayerText
    requires { length name.now ≤ 1 }
    ensures value { result.bytes ≡ other_layer_text mode name.now layer.now }
    ensures short { length result.bytes ≤ 18 }
{
    let mut text = LayerText::new();
    if let Some(used) = layer {
        text.push_str(",");
        text.push_str(name);
        text.push_str(":");
        text.push_str(layer_text(mode, used).as_str());
    }
    text
}

/// The text of the partial reception flag.
fn partial_text(partial: bool) -> &'static str
    ensures value { result.now ≡ partial_text partial }
    ensures short { length result.now ≤ 8 }
{
    if partial { ":partial" } else { "" }
}

/// The word of a setting in a mode.
pub fn setting_word(mode: Mode, setting: &Setting) -> SettingWord
    ensures value { result.bytes ≡ setting_word mode setting.now }
    ensures short { length result.bytes ≤ 61 }
{
    let mut word = SettingWord::new();
    if let Some(a) = setting.layer(Layer::A) {
        word.push_str("A:");
        word.push_str(layer_text(mode, &a).as_str());
    }
    word.push_str(partial_text(setting.partial()));
    word.push_str(other_layer_text(mode, "B", &setting.layer(Layer::B)).as_str());
    word.push_str(other_layer_text(mode, "C", &setting.layer(Layer::C)).as_str());
    word
}
