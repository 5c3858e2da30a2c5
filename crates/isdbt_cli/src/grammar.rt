//! The grammar of a command line: one function a rule, which reads its words from a cursor.
//!
//! Where the words do not follow a rule, it answers the place of the fault: the least place such that nothing that
//! follows the rule begins with the words up to it.

ghost use Rattle.std.specs.Prelude.{◌≡◌, ℕ, ◌<◌, ◌++◌, ◌∷◌, [], length, List, Bool, false, None, is_some, IfSome, IfOk, IfErr, MatchResult, codes, map, string_bytes, option_map, decimal};
ghost use Rattle.isdbt_base.specs.Parameters.{Parameters, IsAccepted};
ghost use Rattle.isdbt_base.specs.declared.kinds.Mode.{Mode as SomeMode};
ghost use Rattle.isdbt_cli.specs.CommandLines.{frame_word, transmission_words, IsName, IsNameIfGiven, IsSampleNumber, Spells, IsFaultAt};
ghost use Rattle.setting_words.specs.SettingWords.{Word, mode_word, guard_word, setting_word};
ghost use Rattle.isdbt_cli.specs.Parsing.{Reads, BeginsWith, IsAny, IsStuck, Follows, FollowsBoth, command_of, named, StartsWith, ReadsTold, IsStuckAtGuard, told_by, IsLater, ReadsMode, IsChange, change_words, ReadsSwitch, IsStuckInSwitch, ReadsPlan, HasNoFrame, planned, ReadsIf, SomeOf};

use crate::command::Command;
use crate::cursor::Cursor;
use crate::fields::{LAST_FRAME, frame_of, sample_number_of};
use isdbt_base::{At, Form, Guard, Layer, Mode, Plan, Reading, Setting, Writing};
use setting_words::{guard_of, mode_of, setting_of};

/// The most switches of a plan.
const MOST_SWITCHES: u32 = 7;

/// The command that the words of a whole line spell, or the place of their fault.
pub fn any_command(list: &[String]) -> Result<Command<'_>, u64>
    ensures { let words = map string_bytes list.entry.now in
        MatchResult result (λ c. Spells words (command_of c)) (λ place. IsFaultAt words place) }
{
    let mut words = Cursor::new(list);
    match words.word()? {
        "remux" => remux(&mut words),
        "code" => code(&mut words),
        "receive" => receive(&mut words),
        "show" => show(&mut words),
        "sample" => sample(&mut words),
        _ => Err(0),
    }
}

/// The words behind `remux`: a plan and the names of the inputs of its layers.
fn remux<'a>(words: &mut Cursor<'a>) -> Result<Command<'a>, u64>
    ensures { MatchResult result (λ c. Spells (codes "remux" ∷ words.old.words) (command_of c))
        (λ place. IsStuck (Follows (codes "remux")) words.old place) }
{
    let plan = plan(words)?;
    let setting = plan.at(0).setting;
    let a = name(words, "A=")?;
    let b = name_if(words, "B=", setting.layer(Layer::B).is_some())?;
    let c = name_if(words, "C=", setting.layer(Layer::C).is_some())?;
    words.end()?;
    Ok(Command::Remux { plan, a, b, c })
}

/// The words behind `code`: a plan, the name of its input, and the version of the stream.
fn code<'a>(words: &mut Cursor<'a>) -> Result<Command<'a>, u64>
    ensures { MatchResult result (λ c. Spells (codes "code" ∷ words.old.words) (command_of c))
        (λ place. IsStuck (Follows (codes "code")) words.old place) }
{
    let plan = plan(words)?;
    let name = name(words, "IN=")?;
    let v2 = wanted_word(words, "v2", plan.changes_mode())?;
    words.end()?;
    let how = Writing { v2 };
    Ok(Command::Code { plan, how, name })
}

/// Takes a word if it is next. Answers whether it is.
fn told_word(words: &mut Cursor<'_>, told: &str) -> bool
    ensures { ReadsIf told.now result words.old words.new }
{
    let Some(word) = words.peek() else {
        return false;
    };
    if word != told {
        return false;
    }
    words.skip();
    true
}

/// The same of a word that may be left out unless it is wanted.
fn wanted_word(words: &mut Cursor<'_>, told: &str, wanted: bool) -> Result<bool, u64>
    ensures wanted { IfOk result (λ is_told. is_told ≡ false → wanted ≡ false) }
    ensures ok { IfOk result (λ is_told. ReadsIf told.now is_told words.old words.new) }
    ensures err { (more : List (Word × Bool)) → IfErr result (λ place. IsStuck (SomeOf ((told.now, wanted) ∷ more)) words.old place) }
{
    let place = words.place();
    let is_told = told_word(words, told);
    if wanted && !is_told {
        return Err(place);
    }
    Ok(is_told)
}

/// The words behind `receive`: the version of the stream, the name of its input, whether reception is partial, and whether
/// words are corrected.
fn receive<'a>(words: &mut Cursor<'a>) -> Result<Command<'a>, u64>
    ensures { MatchResult result (λ c. Spells (codes "receive" ∷ words.old.words) (command_of c))
        (λ place. IsStuck (Follows (codes "receive")) words.old place) }
{
    let form = form(words)?;
    let name = name(words, "IN=")?;
    let partial = told_word(words, "partial");
    let fix = told_word(words, "fix");
    words.end()?;
    let how = Reading { form, fix };
    Ok(Command::Receive { how, partial, name })
}

/// The words behind `show`: what is shown, and the words behind it.
fn show<'a>(words: &mut Cursor<'a>) -> Result<Command<'a>, u64>
    ensures { MatchResult result (λ c. Spells (codes "show" ∷ words.old.words) (command_of c))
        (λ place. IsStuck (Follows (codes "show")) words.old place) }
{
    let place = words.place();
    match words.word()? {
        "bts" => show_bts(words),
        "cells" => show_cells(words),
        _ => Err(place),
    }
}

/// The words behind `show bts`: the mode and the guard interval, and the name of its input.
fn show_bts<'a>(words: &mut Cursor<'a>) -> Result<Command<'a>, u64>
    ensures { MatchResult result (λ c. Spells (codes "show" ∷ codes "bts" ∷ words.old.words) (command_of c))
        (λ place. IsStuck (FollowsBoth (codes "show") (codes "bts")) words.old place) }
{
    let mode = mode(words)?;
    let guard = guard(words)?;
    let name = name(words, "IN=")?;
    words.end()?;
    Ok(Command::ShowBts { mode, guard, name })
}

/// The words behind `show cells`: the version of the stream, the name of its input, and whether words are corrected.
fn show_cells<'a>(words: &mut Cursor<'a>) -> Result<Command<'a>, u64>
    ensures { MatchResult result (λ c. Spells (codes "show" ∷ codes "cells" ∷ words.old.words) (command_of c))
        (λ place. IsStuck (FollowsBoth (codes "show") (codes "cells")) words.old place) }
{
    let form = form(words)?;
    let name = name(words, "IN=")?;
    let fix = told_word(words, "fix");
    words.end()?;
    let how = Reading { form, fix };
    Ok(Command::ShowCells { how, name })
}

/// The words behind `sample`: its number.
fn sample<'a>(words: &mut Cursor<'a>) -> Result<Command<'a>, u64>
    ensures { MatchResult result (λ c. Spells (codes "sample" ∷ words.old.words) (command_of c))
        (λ place. IsStuck (Follows (codes "sample")) words.old place) }
{
    let number = sample_number(words)?;
    words.end()?;
    Ok(Command::Sample { number })
}

/// The number of a sample.
fn sample_number(words: &mut Cursor<'_>) -> Result<u16, u64>
    ensures accepted { IfOk result (λ n. IsSampleNumber n) }
    ensures ok { IfOk result (λ n. Reads (decimal n ∷ []) words.old words.new) }
    ensures err { IfErr result (λ place. IsStuck (BeginsWith IsSampleNumber (λ n. decimal n ∷ [])) words.old place) }
{
    let place = words.place();
    let word = words.word()?;
    sample_number_of(word).ok_or(place)
}

/// The version of a stream that is read: version 1 where a mode and a guard interval are told, and else version 2.
fn form(words: &mut Cursor<'_>) -> Result<Form, u64>
    ensures ok { IfOk result (λ form. ReadsTold (told_by form) words.old words.new) }
    ensures err { IfErr result (λ place. IsStuckAtGuard words.old place) }
{
    let Some((mode, guard)) = told(words)? else {
        return Ok(Form::V2);
    };
    Ok(Form::V1 { mode, guard })
}

/// A plan, with switches as long as the next word is a frame at which it takes one; another word ends it. Behind both
/// commands with a plan it is read alike.
fn plan(words: &mut Cursor<'_>) -> Result<Plan, u64>
    ensures ok { IfOk result (λ p. ReadsPlan p words.old words.new) }
    ensures end { IfOk result (λ p. HasNoFrame p words.new) }
    ensures err { IfErr result (λ place. (coded : Bool) → IsStuck (Follows (planned coded)) words.old place) }
{
    let mut plan = opening(words)?;
    for _ in 0..MOST_SWITCHES {
        if !switch(words, &mut plan)? {
            return Ok(plan);
        }
    }
    Ok(plan)
}

/// What frame 0 sends, as a plan with no switch.
fn opening(words: &mut Cursor<'_>) -> Result<Plan, u64>
    ensures plain { IfOk result (λ p. p.switches ≡ []) }
    ensures accepted { IfOk result (λ p. IsAccepted p.first.setting) }
    ensures ok { IfOk result (λ p. Reads (transmission_words p.first) words.old words.new) }
    ensures err { IfErr result (λ place. IsStuck (BeginsWith (λ t. IsAccepted t.setting) transmission_words) words.old place) }
{
    let mode = mode(words)?;
    let guard = guard(words)?;
    let setting = setting(words, mode)?;
    setting.acceptance_law();
    Ok(Plan::new(mode, guard, setting))
}

/// One more switch of a plan, if the next word is a frame at which it may come. Answers whether it is.
fn switch(words: &mut Cursor<'_>, plan: &mut Plan) -> Result<bool, u64>
    requires { length plan.old.switches < 7 }
    ensures ok { IfOk result (λ more. ReadsSwitch more plan.old plan.new words.old words.new) }
    ensures err { IfErr result (λ place. IsStuckInSwitch plan.old words.old place) }
{
    plan.acceptance_law();
    let before = plan.at(LAST_FRAME);
    let Some(frame) = next_frame(words, before.start) else {
        return Ok(false);
    };
    let (mode, guard) = mode_and_guard(words, before)?;
    let place = words.place();
    let setting = setting(words, mode)?;
    setting.acceptance_law();
    match plan.add_switch_at(frame, mode, guard, setting) {
        Ok(()) => Ok(true),
        Err(_) => Err(place),
    }
}

/// Takes the next word if it is a frame after this one.
fn next_frame(words: &mut Cursor<'_>, last: u32) -> Option<u32>
    ensures some { IfSome result (λ frame. IsLater last frame × Reads (frame_word frame ∷ []) words.old words.new) }
    ensures kept { result ≡ None → words.new ≡ words.old }
    ensures none { (frame : ℕ) → result ≡ None → IsLater last frame → StartsWith (frame_word frame) words.old.words → ⊥ }
{
    let text = words.peek()?.strip_prefix("@")?;
    let frame = frame_of(text)?;
    if frame <= last {
        return None;
    }
    words.skip();
    Some(frame)
}

/// The mode and the guard interval of a switch, or those before it where they are not told.
fn mode_and_guard(words: &mut Cursor<'_>, before: At) -> Result<(Mode, Guard), u64>
    ensures ok { IfOk result (λ x. ReadsMode before.mode before.guard x.0 x.1 words.old words.new) }
    ensures err { (first : Parameters) → IsAccepted first → IfErr result (λ place. IsStuck (BeginsWith (IsChange first before.mode before.guard) change_words) words.old place) }
{
    let Some((mode, guard)) = told(words)? else {
        return Ok((before.mode, before.guard));
    };
    Ok((mode, guard))
}

/// A mode and a guard interval, if the next word is a mode.
fn told(words: &mut Cursor<'_>) -> Result<Option<(Mode, Guard)>, u64>
    ensures ok { IfOk result (λ told. ReadsTold told words.old words.new) }
    ensures err { IfErr result (λ place. IsStuckAtGuard words.old place) }
{
    let Some(mode) = next_mode(words) else {
        return Ok(None);
    };
    let guard = guard(words)?;
    Ok(Some((mode, guard)))
}

/// Takes the next word if it is a mode.
fn next_mode(words: &mut Cursor<'_>) -> Option<Mode>
    ensures some { IfSome result (λ mode. Reads (mode_word mode ∷ []) words.old words.new) }
    ensures kept { result ≡ None → words.new ≡ words.old }
    ensures none { (mode : SomeMode) → result ≡ None → StartsWith (mode_word mode) words.old.words → ⊥ }
{
    let mode = mode_of(words.peek()?)?;
    words.skip();
    Some(mode)
}

/// The transmission mode.
fn mode(words: &mut Cursor<'_>) -> Result<Mode, u64>
    ensures ok { IfOk result (λ m. Reads (mode_word m ∷ []) words.old words.new) }
    ensures err { IfErr result (λ place. IsStuck (BeginsWith IsAny (λ m. mode_word m ∷ [])) words.old place) }
{
    let place = words.place();
    let word = words.word()?;
    mode_of(word).ok_or(place)
}

/// The guard interval ratio.
fn guard(words: &mut Cursor<'_>) -> Result<Guard, u64>
    ensures ok { IfOk result (λ g. Reads (guard_word g ∷ []) words.old words.new) }
    ensures err { IfErr result (λ place. IsStuck (BeginsWith IsAny (λ g. guard_word g ∷ [])) words.old place) }
{
    let place = words.place();
    let word = words.word()?;
    guard_of(word).ok_or(place)
}

/// A setting of the mode.
fn setting(words: &mut Cursor<'_>, mode: Mode) -> Result<Setting, u64>
    ensures ok { IfOk result (λ s. Reads (setting_word mode s ∷ []) words.old words.new) }
    ensures err { IfErr result (λ place. IsStuck (BeginsWith IsAccepted (λ s. setting_word mode s ∷ [])) words.old place) }
{
    let place = words.place();
    let word = words.word()?;
    setting_of(mode, word).ok_or(place)
}

/// A named input: the seat's text, as `A=`, and a name of one character or more.
fn name<'a>(words: &mut Cursor<'a>, seat: &str) -> Result<&'a str, u64>
    ensures name { IfOk result (λ name. IsName name.now) }
    ensures ok { IfOk result (λ name. Reads ((seat.now ++ name.now) ∷ []) words.old words.new) }
    ensures err { IfErr result (λ place. IsStuck (BeginsWith IsName (λ name. (seat.now ++ name) ∷ [])) words.old place) }
{
    let place = words.place();
    match words.word()?.strip_prefix(seat) {
        Some(name) if !name.is_empty() => Ok(name),
        _ => Err(place),
    }
}

/// A named input where its layer is used, and else none.
fn name_if<'a>(words: &mut Cursor<'a>, seat: &str, used: bool) -> Result<Option<&'a str>, u64>
    ensures name { IfOk result (λ o. IsNameIfGiven (option_map (λ x. x.now) o) × (is_some o ≡ used)) }
    ensures ok { IfOk result (λ o. Reads (named seat.now (option_map (λ x. x.now) o)) words.old words.new) }
    ensures err { IfErr result (λ place. IsStuck (BeginsWith (λ o. IsNameIfGiven o × (is_some o ≡ used)) (named seat.now)) words.old place) }
{
    if !used {
        return Ok(None);
    }
    let name = name(words, seat)?;
    Ok(Some(name))
}
