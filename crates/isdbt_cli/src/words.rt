//! The words of a command line.

ghost use Rattle.std.specs.Prelude.{◌≡◌, ◌++◌, ◌∷◌, [], OnOk, OnErr, MatchResult};
ghost use Rattle.isdbt_cli.specs.CommandLines.{Spells, IsFaultAt};
ghost use Rattle.isdbt_cli.specs.Parsing.{command_of};

use crate::command::Command;
use crate::grammar::any_command;
use isdbt_base::NoMemory;
use std::alloc::Global;
use std::marker::Model;

/// A command line as a list of texts, the program's own name left out.
#[derive(Drop)]
pub struct Words {
    alloc: Global,
    list: Vec<String>,
}

impl Model for Words {
    ghost use Rattle.std.specs.Prelude.{ℕ, List, map, string_bytes};

    ghost Value = { List (List ℕ) };

    ghost view = { λ w. map string_bytes w.list.items };
}

impl Words {
    /// No words.
    pub fn new(alloc: Global) -> Words
        ensures { result ≡ [] }
    {
        Words {
            alloc,
            list: Vec::new(alloc),
        }
    }

    /// Adds a word behind the others. Want of memory leaves the list as it was.
    pub fn push(&mut self, word: &str) -> Result<(), NoMemory>
        ensures ok { OnOk result (self.new ≡ self.old ++ word.now ∷ []) }
        ensures err { OnErr result (self.new ≡ self.old) }
    {
        let Ok(word) = String::from_str(self.alloc, word) else {
            return Err(NoMemory);
        };
        match self.list.push(word) {
            Ok(()) => Ok(()),
            Err(_) => Err(NoMemory),
        }
    }

    /// The command that the words spell. Else the place of their fault: the least place such that no command begins with
    /// the words up to it, or the count of the words where a command begins with all of them.
    pub fn command(&self) -> Result<Command<'_>, u64>
        ensures { MatchResult result (λ c. Spells self.now (command_of c)) (λ place. IsFaultAt self.now place) }
    {
        any_command(&self.list)
    }
}
