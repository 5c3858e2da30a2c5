//! Which words a receiver refuses.

ghost use Rattle.std.specs.Prelude.{◌≡◌, Some, None, Ok, MatchResult};
ghost use Rattle.tmcc_word.specs.Reading.{read};
ghost use Rattle.seg_receiver.specs.ReceiveRefusals.{same_setting, is_expected, behind_refusal, reading_refusal, word_refusal};

use crate::aim::Aim;
use crate::fault::ReceiveFault;
use crate::words::{check_part, expected_setting};
use isdbt_base::Setting;
use tmcc_word::{TmccFault, TmccInfo, read_word};

/// Whether two settings are the same: a word has the same bits for both.
fn same_setting(a: &Setting, b: &Setting) -> bool
    ensures { result ≡ same_setting a.now b.now }
{
    a.acceptance_law();
    b.acceptance_law();
    a.is_equal(b)
}

/// Whether a setting is the expected one, if there is one.
fn is_expected(expected: &Option<Setting>, setting: &Setting) -> bool
    ensures { result ≡ is_expected expected.now setting.now }
{
    match expected {
        Some(expected) => same_setting(expected, setting),
        None => false,
    }
}

/// Whether a word can stand behind that of the frame before, if there is one.
fn check_behind(
    frame: u32,
    before: &Option<(TmccInfo, bool)>,
    word: &(TmccInfo, bool),
) -> Result<(), ReceiveFault>
    ensures { MatchResult result (λ received. behind_refusal frame before.now word.now ≡ None) (λ fault. behind_refusal frame before.now word.now ≡ Some fault) }
{
    let Some(last) = before else {
        return Ok(());
    };
    if last.1 == word.1 {
        return Err(ReceiveFault::BadTmcc {
            frame,
            reason: TmccFault::Sync,
        });
    }
    if !is_expected(&expected_setting(&last.0), &word.0.now) {
        return Err(ReceiveFault::Unannounced { frame });
    }
    Ok(())
}

/// Whether what a word says can stand, by what is asked: for lines each can.
fn check_reading(
    frame: u32,
    aim: Aim,
    before: &Option<(TmccInfo, bool)>,
    word: &(TmccInfo, bool),
) -> Result<(), ReceiveFault>
    ensures { MatchResult result (λ stands. reading_refusal frame aim before.now word.now ≡ None) (λ fault. reading_refusal frame aim before.now word.now ≡ Some fault) }
{
    match aim {
        Aim::Full => check_behind(frame, before, word),
        Aim::Partial => {
            check_behind(frame, before, word)?;
            check_part(frame, &word.0.now)
        }
        Aim::Lines => Ok(()),
    }
}

/// What the bits of a frame's word say, or why the word is refused, by what is asked and by the word of the frame before, if
/// there is one.
pub fn check_word(
    frame: u32,
    aim: Aim,
    before: &Option<(TmccInfo, bool)>,
    bits: &[bool; 204],
) -> Result<(TmccInfo, bool), ReceiveFault>
    ensures { MatchResult result (λ word. (read bits.now ≡ Ok word) × (word_refusal frame aim before.now (read bits.now) ≡ None))
        (λ fault. word_refusal frame aim before.now (read bits.now) ≡ Some fault) }
{
    let word = read_word(bits).map_err(|reason| ReceiveFault::BadTmcc { frame, reason })?;
    check_reading(frame, aim, before, &word)?;
    Ok(word)
}
