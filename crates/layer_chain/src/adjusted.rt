//! A stage behind its delay adjustment.

ghost use Rattle.std.specs.Prelude.{◌≡◌, ℕ, ◌+◌, ◌%◌, [], length, vec_len, IfOk};
ghost use Rattle.delay_line.specs.Stages.{StandsFor};
ghost use Rattle.delay_line.specs.Adjusted.{AdjustedStandsFor};
ghost use Rattle.layer_chain.specs.Streams.{first_of, AreItems, adjusted_item};

use delay_line::{Line, Stage};
use isdbt_base::NoMemory;
use std::alloc::Global;

/// A line, which is the adjustment, and a stage behind it.
#[derive(Drop)]
pub struct Adjusted<S: Stage + Drop> {
    pub line: Line<S::Item>,
    pub stage: S,
    /// What the line gives: as many items as come in at once.
    pub middle: Vec<S::Item>,
}

impl<S: Stage + Drop> Adjusted<S> {
    /// A line of so many of the stage's zeros before the stage, for so many items at once. Fails only if memory runs out.
    pub fn open(
        alloc: Global,
        adjustment: u32,
        stage: S,
        size: usize,
    ) -> Result<Adjusted<S>, NoMemory>
        ensures stage { IfOk result (λ s. s.stage ≡ stage) }
        ensures size { IfOk result (λ s. vec_len s.middle ≡ size) }
        ensures stands { StandsFor (S.layout stage) (S.held stage) []
            → IfOk result (λ s. AdjustedStandsFor (S.layout stage) adjustment s.line (S.held stage) []) }
    {
        let zero = stage.zero();
        let line = Line::open(alloc, adjustment, zero)?;
        let mut middle = Vec::new(alloc);
        for _item in 0..size {
            middle.push(zero)?;
        }
        Ok(Adjusted {
            line,
            stage,
            middle,
        })
    }

    /// Takes whole turns in, as many items as it was opened for, and writes those that go out for them.
    pub fn feed(&mut self, input: &[S::Item], output: &mut [S::Item])
        requires room { length input.now ≡ vec_len self.old.middle }
        requires lengths { length input.now ≡ length output.old }
        requires turns { length input.now % (S.layout self.old.stage).paths ≡ 0 }
        ensures given { let l = S.layout self.old.stage in (a : ℕ) (stream : ℕ → S.Item) (n : ℕ)
            → AdjustedStandsFor l a self.old.line (S.held self.old.stage) (first_of stream n) → AreItems l.zero stream n (length input.now) input.now
            → AreItems l.zero (adjusted_item l a stream) n (length input.now) output.new }
        ensures state { let l = S.layout self.old.stage in (a : ℕ) (stream : ℕ → S.Item) (n : ℕ)
            → AdjustedStandsFor l a self.old.line (S.held self.old.stage) (first_of stream n) → AreItems l.zero stream n (length input.now) input.now
            → AdjustedStandsFor l a self.new.line (S.held self.new.stage) (first_of stream (n + length input.now)) }
        ensures layout { S.layout self.new.stage ≡ S.layout self.old.stage }
        ensures size { vec_len self.new.middle ≡ vec_len self.old.middle }
    {
        self.line.feed(input, &mut self.middle);
        self.stage.feed(&self.middle, output);
    }
}
