//! Words as records.

ghost use Rattle.std.specs.Prelude.{◌≡◌, ◌+◌, ◌≤◌, length, true, Err};
ghost use Rattle.tmcc_word.specs.declared.fault.TmccFault.{TmccFault as AnyFault};
ghost use Rattle.tmcc_word.specs.Causes.{IsOfInformation};
ghost use Rattle.tmcc_word.specs.Reading.{read, info_at, setting_at, setting_of, setting_with_a, layer_field_at, layer_of_codes};

use crate::bits::number_at;
use crate::codes::{depth_in, modulation_in, odd_in, rate_in};
use crate::cyclic_code::is_codeword;
use crate::fault::TmccFault;
use crate::info::TmccInfo;
use crate::layer_bits::LayerBits;
use isdbt_base::{DepthCode, Layer, LayerSetting, Modulation, Rate, Setting, SettingFault};

/// What a word says and whether it is that of an odd frame, or the first cause of refusal in the order of [`TmccFault`].
/// The next setting is read by the rules of the present one, and is None where they refuse it. Bits B0 and B107 to B121
/// aren't read but for the parity.
#[tactic(auto, unfolding(crate::specs::Reading::read))]
pub fn read_word(word: &[bool; 204]) -> Result<(TmccInfo, bool), TmccFault>
    ensures { result ≡ read word.now }
{
    let odd = odd_in(number_at(word, 1, 16)).ok_or(TmccFault::Sync)?;
    if number_at(word, 17, 3) != 0 {
        return Err(TmccFault::SegmentType);
    }
    if !is_codeword(&word[20..204]) {
        return Err(TmccFault::Parity);
    }
    let info = info_at(word, 20)?;
    Ok((info, odd))
}

/// What bits B20 to B121 of a word say, or the first cause of refusal: System, LayerField or Segments, and no other. The
/// next setting is read by the rules of the present one, and is None where they refuse it. The last 15 bits aren't read.
pub fn read_info(bits: &[bool; 102]) -> Result<TmccInfo, TmccFault>
    ensures value { result ≡ info_at bits.now 0 }
    ensures cause { (fault : AnyFault) → result ≡ Err fault → IsOfInformation fault }
{
    info_read(bits)
}

fn info_read(bits: &[bool; 102]) -> Result<TmccInfo, TmccFault>
    ensures { result ≡ info_at bits.now 0 }
{
    let info = info_at(bits, 0)?;
    Ok(info)
}

/// What the 102 bits of information say that begin at bit `at`, or the first cause of refusal.
#[tactic(auto, unfolding(crate::specs::Reading::info_at))]
fn info_at(word: &[bool], at: usize) -> Result<TmccInfo, TmccFault>
    requires { at + 102 ≤ length word.now }
    ensures { result ≡ info_at word.now at }
{
    if number_at(word, at, 2) != 0 {
        return Err(TmccFault::System);
    }
    let now = setting_at(word, at + 7)?;
    Ok(TmccInfo {
        start_up: word[at + 6],
        countdown: number_at(word, at + 2, 4) as u8,
        now,
        next: setting_at(word, at + 47).ok(),
    })
}

/// The setting whose 40 bits begin at bit `at`, or the first cause of refusal.
#[tactic(auto, unfolding(crate::specs::Reading::setting_at))]
fn setting_at(word: &[bool], at: usize) -> Result<Setting, TmccFault>
    requires { at + 40 ≤ length word.now }
    ensures { result ≡ setting_at word.now at }
{
    setting_of(
        word[at],
        layer_at(word, at + 1),
        layer_at(word, at + 14),
        layer_at(word, at + 27),
    )
}

/// The setting that a partial reception flag and the bits of three layers give, or the first cause of refusal.
fn setting_of(partial: bool, a: LayerBits, b: LayerBits, c: LayerBits) -> Result<Setting, TmccFault>
    ensures { result ≡ setting_of partial a b c }
{
    match a {
        LayerBits::Used(a) => {
            if partial && a.segments() != 1 {
                return Err(TmccFault::LayerField(Layer::A));
            }
            setting_with_a(partial, a, b, c)
        }
        LayerBits::Unused | LayerBits::Refused => Err(TmccFault::LayerField(Layer::A)),
    }
}

/// The setting that layer A and the bits of B and C give, or the first cause of refusal.
fn setting_with_a(
    partial: bool,
    a: LayerSetting,
    b: LayerBits,
    c: LayerBits,
) -> Result<Setting, TmccFault>
    requires { partial ≡ true → a.segments ≡ 1 }
    ensures { result ≡ setting_with_a partial a b c }
{
    let b = match b {
        LayerBits::Used(b) => Some(b),
        LayerBits::Unused if c == LayerBits::Unused => None,
        _ => return Err(TmccFault::LayerField(Layer::B)),
    };
    let c = match c {
        LayerBits::Used(c) => Some(c),
        LayerBits::Unused => None,
        LayerBits::Refused => return Err(TmccFault::LayerField(Layer::C)),
    };
    match Setting::new(partial, a, b, c) {
        Ok(setting) => Ok(setting),
        Err(SettingFault::Segments(sum)) => Err(TmccFault::Segments(sum)),
        Err(_) => unreachable!(),
    }
}

/// What the 13 bits of a layer say that begin at bit `at`.
#[tactic(auto, unfolding(crate::specs::Reading::layer_field_at))]
fn layer_at(word: &[bool], at: usize) -> LayerBits
    requires { at + 13 ≤ length word.now }
    ensures { result ≡ layer_field_at word.now at }
{
    let modulation = number_at(word, at, 3);
    if modulation == 7 {
        return LayerBits::Unused;
    }
    let rate = number_at(word, at + 3, 3);
    let depth = number_at(word, at + 6, 3);
    let segments = number_at(word, at + 9, 4);
    layer_of_codes(
        segments,
        modulation_in(modulation),
        rate_in(rate),
        depth_in(depth),
    )
}

/// The layer of these codes, where each has a meaning and the segments are 1 to 13.
fn layer_of_codes(
    segments: u32,
    modulation: Option<Modulation>,
    rate: Option<Rate>,
    depth: Option<DepthCode>,
) -> LayerBits
    ensures { result ≡ layer_of_codes segments modulation rate depth }
{
    let (Some(modulation), Some(rate), Some(depth)) = (modulation, rate, depth) else {
        return LayerBits::Refused;
    };
    match LayerSetting::new(segments, modulation, rate, depth) {
        Some(layer) => LayerBits::Used(layer),
        None => LayerBits::Refused,
    }
}
