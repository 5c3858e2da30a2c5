//! What a command line asks for.

use isdbt_base::{Guard, Mode, Plan, Reading, Writing};

/// A command, as its words say it.
#[derive(Debug, Drop)]
pub enum Command<'a> {
    /// Remultiplexes the inputs of these names, one for each layer that the plan uses.
    Remux {
        plan: Plan,
        a: &'a str,
        b: Option<&'a str>,
        c: Option<&'a str>,
    },
    /// Codes the broadcast packets of the input of this name into a stream that is written so.
    Code {
        plan: Plan,
        how: Writing,
        name: &'a str,
    },
    /// Receives the cells of the input of this name, a stream that is read so, in full or for partial reception.
    Receive {
        how: Reading,
        partial: bool,
        name: &'a str,
    },
    /// Shows the frames of broadcast packets of the input of this name, each with the packets of this mode and guard interval.
    ShowBts {
        mode: Mode,
        guard: Guard,
        name: &'a str,
    },
    /// Shows the frames of cells of the input of this name, a stream that is read so.
    ShowCells {
        how: Reading,
        name: &'a str,
    },
    /// Runs the chain over the made input of this number.
    Sample {
        number: u16,
    },
}
