//! The word of a setting, read.

ghost use Rattle.std.specs.Prelude.{◌≡◌, ◌++◌, Bool, Some, IfSome};
ghost use Rattle.std.specs.declared.option.Option.{Option as Maybe};
ghost use Rattle.isdbt_base.specs.LayerParameters.{LayerParameters, HasSegments};
ghost use Rattle.isdbt_base.specs.Parameters.{Parameters, IsAccepted};
ghost use Rattle.setting_words.specs.SettingWords.{layer_text, partial_text, setting_word};
ghost use Rattle.setting_words.specs.Reading.{comma, Lacks, behind_comma, other_layers_text, AreOthers, IsRead};

use crate::fields::{depth_of, modulation_of, rate_of, segments_of};
use isdbt_base::{LayerSetting, Mode, Setting};

/// The setting that a word spells in a mode, or None exactly where it spells no accepted setting.
pub fn setting_of(mode: Mode, word: &str) -> Option<Setting>
    ensures { IsRead mode word.now result }
{
    let layers = word.strip_prefix("A:")?;
    let (first, others) = first_part(layers);
    let (a, partial) = first_layer(mode, first)?;
    let (b, c) = other_layers(mode, others)?;
    match Setting::new(partial, a, b, c) {
        Ok(setting) => Some(setting),
        Err(_) => None,
    }
}

/// The text before the first comma, and what stands behind it if there is one.
fn first_part(text: &str) -> (&str, Option<&str>)
    ensures whole { text.now ≡ result.0.now ++ behind_comma result.1 }
    ensures first { Lacks comma result.0.now }
{
    match text.split_once(',') {
        Some((first, others)) => (first, Some(others)),
        None => (text, None),
    }
}

/// Layer A and whether partial reception is set.
fn first_layer(mode: Mode, text: &str) -> Option<(LayerSetting, bool)>
    ensures spelled { IfSome result (λ x. HasSegments x.0 × (text.now ≡ layer_text mode x.0 ++ partial_text x.1)) }
    ensures found { (l : LayerParameters) (partial : Bool) → HasSegments l → text.now ≡ layer_text mode l ++ partial_text partial
        → result ≡ Some (l, partial) }
{
    match text.strip_suffix(":partial") {
        Some(front) => {
            let layer = layer_of(mode, front)?;
            Some((layer, true))
        }
        None => {
            let layer = layer_of(mode, text)?;
            Some((layer, false))
        }
    }
}

/// Layers B and C, of the text behind the first comma.
fn other_layers(
    mode: Mode,
    text: Option<&str>,
) -> Option<(Option<LayerSetting>, Option<LayerSetting>)>
    ensures spelled { IfSome result (λ x. AreOthers x.0 x.1 × (behind_comma text.entry ≡ other_layers_text mode x.0 x.1)) }
    ensures found { (b c : Maybe LayerParameters) → AreOthers b c → behind_comma text.entry ≡ other_layers_text mode b c
        → result ≡ Some (b, c) }
{
    let Some(text) = text else {
        return Some((None, None));
    };
    let (second, others) = first_part(text);
    let b = layer_of(mode, second.strip_prefix("B:")?)?;
    let Some(third) = others else {
        return Some((Some(b), None));
    };
    let c = layer_of(mode, third.strip_prefix("C:")?)?;
    Some((Some(b), Some(c)))
}

/// The parameters of a layer.
fn layer_of(mode: Mode, text: &str) -> Option<LayerSetting>
    ensures spelled { IfSome result (λ l. HasSegments l × (text.now ≡ layer_text mode l)) }
    ensures found { (l : LayerParameters) → HasSegments l → text.now ≡ layer_text mode l → result ≡ Some l }
{
    let (segments, rest) = text.split_once(':')?;
    let (modulation, rest) = rest.split_once(':')?;
    let (rate, depth) = rest.split_once(':')?;
    let segments = segments_of(segments)?;
    let modulation = modulation_of(modulation)?;
    let rate = rate_of(rate)?;
    let depth = depth_of(mode, depth)?;
    LayerSetting::new(segments, modulation, rate, depth)
}
