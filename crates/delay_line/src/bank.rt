//! Delay lines side by side.

ghost use Rattle.std.specs.Prelude.{◌≡◌, ℕ, ◌<◌, ◌%◌, [], ◌∷◌, ◌++◌, length, replicate, slice_index_or, OnOk, OnErr};
ghost use Rattle.delay_line.specs.Stages.{path_items};

use crate::line::Line;
use isdbt_base::NoMemory;
use std::alloc::Global;
use std::marker::Model;

/// Delay lines side by side, one for each path of a stage.
///
/// Contracts see, path by path, the items that are held, the next to go out first.
#[derive(Drop)]
pub struct LineBank<T> {
    lines: Vec<Line<T>>,
}

impl<T> Model for LineBank<T> {
    ghost use Rattle.std.specs.Prelude.{List};

    ghost Value = { List (List T) };

    ghost view = { λ b. b.lines.items };
}

impl<T: Copy> LineBank<T> {
    /// A bank with no path.
    pub fn new(alloc: Global) -> LineBank<T>
        ensures { result ≡ [] }
    {
        LineBank {
            lines: Vec::new(alloc),
        }
    }

    /// Adds a path of so many turns' delay behind the others, which holds as many fills. Without
    /// memory for it the bank stays as it is.
    pub fn add(&mut self, alloc: Global, delay: u32, fill: T) -> Result<(), NoMemory>
        ensures ok { OnOk result (self.new ≡ self.old ++ replicate delay fill ∷ []) }
        ensures err { OnErr result (self.new ≡ self.old) }
    {
        let line = Line::open(alloc, delay, fill)?;
        self.lines.push(line)?;
        Ok(())
    }

    /// The count of the paths.
    pub fn paths(&self) -> usize
        ensures { result ≡ length self.now }
    {
        self.lines.len()
    }

    /// Takes whole turns in, and writes the turns that go out for them. There is at least one path.
    pub fn feed(&mut self, input: &[T], output: &mut [T])
        requires paths { 0 < length self.old }
        requires lengths { length input.now ≡ length output.old }
        requires turns { length input.now % length self.old ≡ 0 }
        ensures held { (d : T) (p : ℕ) → p < length self.old
            → slice_index_or self.old p [] ++ path_items (length self.old) d input.now p
            ≡ path_items (length self.old) d output.new p ++ slice_index_or self.new p [] }
        ensures paths { length self.new ≡ length self.old }
        ensures delays { (p : ℕ) → length (slice_index_or self.new p []) ≡ length (slice_index_or self.old p []) }
    {
        let paths = self.lines.len();
        let turns = input.len() / paths;
        for path in 0..paths {
            self.lines[path].feed_path(paths, path, turns, input, output);
        }
    }
}
