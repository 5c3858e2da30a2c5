//! Stages: paths side by side, each a delay line.

ghost use Rattle.std.specs.Prelude.{◌≡◌, ℕ, ◌<◌, ◌≤◌, ◌%◌, List, length};
ghost use Rattle.delay_line.specs.Stages.{Layout, PassesOn};

/// Paths side by side, each of its own delay. Item n of the stream belongs to path n modulo the
/// paths; one item on each path is a turn, and delays are counted in turns. What the layout says
/// stays for the stage's life.
///
/// Contracts see the layout, and the items that each path holds, the next to go out first.
pub trait Stage {
    /// An item of the stream.
    type Item: Copy;

    /// DELAY, ZERO, the paths and their delays.
    ghost layout: { Self → Layout Self.Item };

    /// What each path holds.
    ghost held: { Self → ℕ → List Self.Item };

    /// DELAY: the turns that an item takes through the stage and its partner.
    fn delay(&self) -> u32
        ensures { result ≡ (layout self.now).delay };

    /// ZERO: the item that a path holds at first, as often as its delay.
    fn zero(&self) -> Self::Item
        ensures { result ≡ (layout self.now).zero };

    /// The count of the paths.
    fn paths(&self) -> u32
        ensures value { result ≡ (layout self.now).paths }
        ensures least { 1 ≤ result };

    /// The delay of a path in turns: how many items it holds.
    fn path_delay(&self, path: u32) -> u32
        requires { path < (layout self.now).paths }
        ensures value { result ≡ (layout self.now).path_delay path }
        ensures most { result ≤ (layout self.now).delay }
        ensures holds { length (held self.now path) ≡ result };

    /// Takes whole turns in, and writes the turns that go out for them.
    fn feed(&mut self, input: &[Self::Item], output: &mut [Self::Item])
        requires lengths { length input.now ≡ length output.old }
        requires turns { length input.now % (layout self.old).paths ≡ 0 }
        ensures held { PassesOn (layout self.old) (held self.old) input.now output.new (held self.new) }
        ensures layout { layout self.new ≡ layout self.old };
}
