//! The choices of a transmission as texts.
//!
//! Each function answers the one choice that a text spells, and None exactly where the text spells none.

ghost use Rattle.std.specs.Prelude.{◌≡◌, ℕ, ◌≤◌, Some, IfSome, decimal};
ghost use Rattle.isdbt_base.specs.declared.kinds.Mode.{Mode as SomeMode};
ghost use Rattle.isdbt_base.specs.declared.kinds.Guard.{Guard as SomeGuard};
ghost use Rattle.isdbt_base.specs.declared.kinds.Modulation.{Modulation as SomeModulation};
ghost use Rattle.isdbt_base.specs.declared.kinds.Rate.{Rate as SomeRate};
ghost use Rattle.isdbt_base.specs.declared.kinds.DepthCode.{DepthCode as SomeDepth};
ghost use Rattle.setting_words.specs.SettingWords.{mode_word, guard_word, modulation_text, rate_text, depth_text};

use isdbt_base::{DepthCode, Guard, Mode, Modulation, Rate};

/// The transmission mode of a word.
pub fn mode_of(word: &str) -> Option<Mode>
    ensures spelled { IfSome result (λ m. word.now ≡ mode_word m) }
    ensures found { (m : SomeMode) → word.now ≡ mode_word m → result ≡ Some m }
{
    match word {
        "1" => Some(Mode::M1),
        "2" => Some(Mode::M2),
        "3" => Some(Mode::M3),
        _ => None,
    }
}

/// The guard interval ratio of a word.
pub fn guard_of(word: &str) -> Option<Guard>
    ensures spelled { IfSome result (λ g. word.now ≡ guard_word g) }
    ensures found { (g : SomeGuard) → word.now ≡ guard_word g → result ≡ Some g }
{
    match word {
        "1/4" => Some(Guard::G4),
        "1/8" => Some(Guard::G8),
        "1/16" => Some(Guard::G16),
        "1/32" => Some(Guard::G32),
        _ => None,
    }
}

/// The carrier modulation of a field.
pub fn modulation_of(text: &str) -> Option<Modulation>
    ensures spelled { IfSome result (λ m. text.now ≡ modulation_text m) }
    ensures found { (m : SomeModulation) → text.now ≡ modulation_text m → result ≡ Some m }
{
    match text {
        "qpsk" => Some(Modulation::Qpsk),
        "16qam" => Some(Modulation::Qam16),
        "64qam" => Some(Modulation::Qam64),
        _ => None,
    }
}

/// The inner code rate of a field.
pub fn rate_of(text: &str) -> Option<Rate>
    ensures spelled { IfSome result (λ r. text.now ≡ rate_text r) }
    ensures found { (r : SomeRate) → text.now ≡ rate_text r → result ≡ Some r }
{
    match text {
        "1/2" => Some(Rate::R12),
        "2/3" => Some(Rate::R23),
        "3/4" => Some(Rate::R34),
        "5/6" => Some(Rate::R56),
        "7/8" => Some(Rate::R78),
        _ => None,
    }
}

/// The number of segments of a field, 1 to 13.
pub fn segments_of(text: &str) -> Option<u32>
    ensures spelled { IfSome result (λ n. text.now ≡ decimal n) }
    ensures found { (n : ℕ) → 1 ≤ n → n ≤ 13 → text.now ≡ decimal n → result ≡ Some n }
{
    match text {
        "1" => Some(1),
        "2" => Some(2),
        "3" => Some(3),
        "4" => Some(4),
        "5" => Some(5),
        "6" => Some(6),
        "7" => Some(7),
        "8" => Some(8),
        "9" => Some(9),
        "10" => Some(10),
        "11" => Some(11),
        "12" => Some(12),
        "13" => Some(13),
        _ => None,
    }
}

/// The time interleaving length of a field, one of the four of the mode, in symbols.
pub fn depth_of(mode: Mode, text: &str) -> Option<DepthCode>
    ensures spelled { IfSome result (λ d. text.now ≡ depth_text mode d) }
    ensures found { (d : SomeDepth) → text.now ≡ depth_text mode d → result ≡ Some d }
{
    match mode {
        Mode::M1 => match text {
            "0" => Some(DepthCode::D0),
            "4" => Some(DepthCode::D1),
            "8" => Some(DepthCode::D2),
            "16" => Some(DepthCode::D3),
            _ => None,
        },
        Mode::M2 => match text {
            "0" => Some(DepthCode::D0),
            "2" => Some(DepthCode::D1),
            "4" => Some(DepthCode::D2),
            "8" => Some(DepthCode::D3),
            _ => None,
        },
        Mode::M3 => match text {
            "0" => Some(DepthCode::D0),
            "1" => Some(DepthCode::D1),
            "2" => Some(DepthCode::D2),
            "4" => Some(DepthCode::D3),
            _ => None,
        },
    }
}
