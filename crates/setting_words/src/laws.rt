//! The laws of the word of a setting.

ghost use Rattle.std.specs.Prelude.{◌≡◌, Some};
ghost use Rattle.std.specs.declared.option.Option.{Option as Maybe};
ghost use Rattle.isdbt_base.specs.declared.kinds.Mode.{Mode as SomeMode};
ghost use Rattle.isdbt_base.specs.Parameters.{Parameters, IsAccepted};
ghost use Rattle.setting_words.specs.SettingWords.{Word, setting_word};
ghost use Rattle.setting_words.specs.Reading.{IsRead};

/// In a mode, a word is of one setting. What is read of the word of a setting is that setting, and the word of the setting
/// that is read of a word is that word.
pub fn setting_law()
    ensures one { (mode : SomeMode) (s t : Parameters) → IsAccepted s → IsAccepted t → setting_word mode s ≡ setting_word mode t → s ≡ t }
    ensures read { (mode : SomeMode) (s : Parameters) (r : Maybe Parameters) → IsAccepted s → IsRead mode (setting_word mode s) r → r ≡ Some s }
    ensures written { (mode : SomeMode) (word : Word) (s : Parameters) → IsRead mode word (Some s) → setting_word mode s ≡ word }
{}
