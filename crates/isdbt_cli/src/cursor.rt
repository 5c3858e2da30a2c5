//! A cursor over words.

ghost use Rattle.std.specs.Prelude.{◌≡◌, ◌≢◌, [], ◌∷◌, None, IfSome, map, string_bytes, IfOk, IfErr, OnOk};
ghost use Rattle.setting_words.specs.SettingWords.{Word};
ghost use Rattle.isdbt_cli.specs.Parsing.{Reads, StartsWith};

use std::marker::Model;

/// The words that are still to be read, and the place of the first of them among all.
#[derive(Drop)]
pub struct Cursor<'a> {
    words: &'a [String],
    place: u64,
}

impl<'a> Model for Cursor<'a> {
    ghost use Rattle.std.specs.Prelude.{◌+◌, ◌<◌, ◌^◌, length, map, string_bytes};
    ghost use Rattle.isdbt_cli.specs.Parsing.{Unread};

    ghost Value = { Unread };

    ghost view = { λ c. record { place = c.place; words = map string_bytes c.words.now } };

    ghost invariant = { λ c. c.place + length c.words.now < 2 ^ 64 };
}

impl<'a> Cursor<'a> {
    /// The cursor before the first word.
    pub fn new(words: &'a [String]) -> Cursor<'a>
        ensures { result ≡ record { place = 0; words = map string_bytes words.entry.now } }
    {
        Cursor { words, place: 0 }
    }

    /// The place of the next word.
    pub fn place(&self) -> u64
        ensures { result ≡ self.now.place }
    {
        self.place
    }

    /// The next word, if one is left.
    pub fn peek(&self) -> Option<&'a str>
        ensures some { IfSome result (λ word. StartsWith word.now self.now.words) }
        ensures none { result ≡ None → self.now.words ≡ [] }
    {
        let first = self.words.first()?;
        Some(first.as_str())
    }

    /// Goes past the next word, if one is left.
    pub fn skip(&mut self)
        ensures { (word : Word) → StartsWith word self.old.words → Reads (word ∷ []) self.old self.new }
    {
        if let Some((_, rest)) = self.words.split_first() {
            self.words = rest;
            self.place += 1;
        }
    }

    /// Takes the next word, or refuses with its place where none is left.
    pub fn word(&mut self) -> Result<&'a str, u64>
        ensures ok { IfOk result (λ word. Reads (word.now ∷ []) self.old self.new) }
        ensures err { IfErr result (λ place. (place ≡ self.old.place) × (self.old.words ≡ [])) }
    {
        let Some((first, rest)) = self.words.split_first() else {
            return Err(self.place);
        };
        self.words = rest;
        self.place += 1;
        Ok(first.as_str())
    }

    /// Refuses, with its place, a word that is left.
    pub fn end(&self) -> Result<(), u64>
        ensures ok { OnOk result (self.now.words ≡ []) }
        ensures err { IfErr result (λ place. (place ≡ self.now.place) × (self.now.words ≢ [])) }
    {
        if self.words.is_empty() {
            Ok(())
        } else {
            Err(self.place)
        }
    }
}
