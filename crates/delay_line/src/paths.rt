//! One path of whole turns.

ghost use Rattle.std.specs.Prelude.{◌≡◌, ◌≢◌, ℕ, ◌+◌, ◌-◌, ◌*◌, ◌%◌, ◌<◌, ◌≤◌, ◌++◌, length};
ghost use Rattle.delay_line.specs.Lines.{item_of};
ghost use Rattle.delay_line.specs.Stages.{turn_items, path_items};

use crate::line::Line;

/// Copies a path's items to so many turns later.
fn pass_path<T: Copy>(
    paths: usize,
    path: usize,
    turns: usize,
    late: usize,
    input: &[T],
    output: &mut [T],
)
    requires path { path < paths }
    requires input { length input.now ≡ paths * turns }
    requires output { length output.old ≡ paths * turns }
    requires late { late ≤ turns }
    ensures passed { (k : ℕ) (d : T) → late + k < turns → item_of d output.new (paths * (late + k) + path) ≡ item_of d input.now (paths * k + path) }
    ensures others { (n : ℕ) (d : T) → n % paths ≢ path → item_of d output.new n ≡ item_of d output.old n }
{
    for turn in late..turns {
        output[paths * turn + path] = input[paths * (turn - late) + path];
    }
}

impl<T: Copy> Line<T> {
    /// Gives out the first held items, at the first turns, and takes in the items of as many turns
    /// behind those that are skipped.
    fn exchange_path(
        &mut self,
        paths: usize,
        path: usize,
        skipped: usize,
        count: usize,
        input: &[T],
        output: &mut [T],
    )
        requires path { path < paths }
        requires input { length input.now ≡ paths * (skipped + count) }
        requires output { length output.old ≡ paths * (skipped + count) }
        ensures held { (d : T) → self.old ++ turn_items paths d input.now path skipped count ≡ turn_items paths d output.new path 0 count ++ self.new }
        ensures others { (n : ℕ) (d : T) → n % paths ≢ path → item_of d output.new n ≡ item_of d output.old n }
        ensures later { (turn : ℕ) (d : T) → count ≤ turn → item_of d output.new (paths * turn + path) ≡ item_of d output.old (paths * turn + path) }
        ensures delay { length self.new ≡ length self.old }
    {
        for turn in 0..count {
            output[paths * turn + path] = self.step(input[paths * (skipped + turn) + path]);
        }
    }

    /// Takes in the items of one path of so many turns, and writes those that go out for them.
    pub(crate) fn feed_path(
        &mut self,
        paths: usize,
        path: usize,
        turns: usize,
        input: &[T],
        output: &mut [T],
    )
        requires path { path < paths }
        requires input { length input.now ≡ paths * turns }
        requires output { length output.old ≡ paths * turns }
        ensures held { (d : T) → self.old ++ path_items paths d input.now path ≡ path_items paths d output.new path ++ self.new }
        ensures others { (p : ℕ) (d : T) → p < paths → p ≢ path → path_items paths d output.new p ≡ path_items paths d output.old p }
        ensures delay { length self.new ≡ length self.old }
    {
        let count = self.delay().min(turns);
        pass_path(paths, path, turns, count, input, output);
        self.exchange_path(paths, path, turns - count, count, input, output);
    }
}
