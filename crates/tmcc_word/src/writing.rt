//! Records as words.

ghost use Rattle.std.specs.Prelude.{◌≡◌, ◌+◌, ◌≤◌, ◌++◌, Bool, length, take, drop, slice_range, Ok};
ghost use Rattle.tmcc_word.specs.CyclicCode.{IsCodeword};
ghost use Rattle.tmcc_word.specs.Words.{layer_field, setting_field, next_field, information_bits, word_of};
ghost use Rattle.tmcc_word.specs.Reading.{read, info_at};

use crate::bits::put_number;
use crate::codes::{depth_code, modulation_code, rate_code, sync_code};
use crate::cyclic_code::parity;
use crate::info::TmccInfo;
use isdbt_base::{Layer, LayerSetting, Setting, put};

/// The word of a frame that says this. Its bits from B20 on are a codeword, and `read_word` undoes it.
pub fn word_of(info: &TmccInfo, odd: bool) -> [bool; 204]
    ensures value { result ≡ word_of info.entry.now odd }
    ensures codeword { IsCodeword (drop 20 result) }
    ensures reads { read result ≡ Ok (info.entry.now, odd) }
{
    info.acceptance_law();
    written(info, odd)
}

fn written(info: &TmccInfo, odd: bool) -> [bool; 204]
    ensures { result ≡ word_of info.entry.now odd }
{
    let bits = information(info);
    let mut word = [false; 204];
    let at = put_number(&mut word, 1, 16, sync_code(odd));
    let at = put(&mut word, at, &[false; 3]);
    let at = put(&mut word, at, &bits);
    put(&mut word, at, &parity(&bits));
    word
}

/// Bits B20 to B121 of the word that says this, which are the same in even and odd frames. `read_info` undoes it.
pub fn info_bits(info: &TmccInfo) -> [bool; 102]
    ensures value { result ≡ information_bits info.entry.now }
    ensures part { (odd : Bool) → slice_range (word_of info.entry.now odd) 20 122 ≡ result }
    ensures reads { info_at result 0 ≡ Ok info.entry.now }
{
    info.acceptance_law();
    information(info)
}

/// Bits B20 to B121.
fn information(info: &TmccInfo) -> [bool; 102]
    ensures { result ≡ information_bits info.entry.now }
{
    let mut bits = [true; 102];
    let at = put(&mut bits, 0, &[false; 2]);
    let at = put_number(&mut bits, at, 4, u128::from(info.countdown));
    let at = put(&mut bits, at, &[info.start_up]);
    let at = put_setting(&mut bits, at, &info.now);
    let at = put_next(&mut bits, at, &info.next);
    put(&mut bits, at, &[true; 15]);
    bits
}

/// Puts a next setting's 40 bits behind the first `at` bits, and says where they end.
fn put_next(word: &mut [bool], at: usize, next: &Option<Setting>) -> usize
    requires { at + 40 ≤ length word.old }
    ensures end { result ≡ at + 40 }
    ensures bits { take result word.new ≡ take at word.old ++ next_field next.now }
{
    match next {
        Some(setting) => put_setting(word, at, setting),
        None => put(word, at, &[true; 40]),
    }
}

/// Puts a setting's 40 bits behind the first `at` bits, and says where they end.
#[tactic(auto, unfolding(crate::specs::Words::setting_field))]
fn put_setting(word: &mut [bool], at: usize, setting: &Setting) -> usize
    requires { at + 40 ≤ length word.old }
    ensures end { result ≡ at + 40 }
    ensures bits { take result word.new ≡ take at word.old ++ setting_field setting.now }
{
    let at = put(word, at, &[setting.partial()]);
    let at = put_layer(word, at, &setting.layer(Layer::A));
    let at = put_layer(word, at, &setting.layer(Layer::B));
    put_layer(word, at, &setting.layer(Layer::C))
}

/// Puts a layer's 13 bits behind the first `at` bits, and says where they end.
fn put_layer(word: &mut [bool], at: usize, layer: &Option<LayerSetting>) -> usize
    requires { at + 13 ≤ length word.old }
    ensures end { result ≡ at + 13 }
    ensures bits { take result word.new ≡ take at word.old ++ layer_field layer.now }
{
    match layer {
        None => put(word, at, &[true; 13]),
        Some(used) => {
            let at = put_number(word, at, 3, modulation_code(used.modulation()));
            let at = put_number(word, at, 3, rate_code(used.rate()));
            let at = put_number(word, at, 3, depth_code(used.depth()));
            put_number(word, at, 4, u128::from(used.segments()))
        }
    }
}
