//! Delay lines: one line, stages of lines side by side, and two stages one behind the other.
//!
//! A `Line` gives its items out so many items later. A `Stage` has paths, each a line of its own
//! delay: item n of its stream belongs to path n modulo the paths, and one item on each path is a
//! turn. A `LineBank` is the lines of a stage. `through` feeds two partners, a stage and the one
//! that undoes it.
//!
//! Contracts say what goes out and what is held by lists alone. Memory is taken when a line is
//! opened or added, and by no other call.
#![tactic(auto)]

mod bank;
mod laws;
mod line;
mod pair;
mod paths;
mod stage;

pub use bank::LineBank;
pub use laws::{adjusted_law, delay_law, line_law, stage_law};
pub use line::Line;
pub use pair::through;
pub use stage::Stage;

#[cfg(test)]
mod tests;
