//! The program `isdbt`: commands of the ISDB-T transmission chain at the shell.
//!
//! - `remux MODE GUARD PLAN A=NAME [B=NAME [C=NAME]]` makes broadcast packets of the layers' transport packets.
//! - `code MODE GUARD PLAN IN=NAME [v2]` makes cells of broadcast packets. With `v2` each frame has a head, which says its
//!   mode and guard interval.
//! - `receive [MODE GUARD] IN=NAME [partial] [fix]` makes broadcast packets of cells, each layer's packets put off by its delay. The
//!   setting it reads from the TMCC words of the frames. Without MODE and GUARD the frames have heads, and it reads both from
//!   them. With `partial` it makes layer A's packets alone, of the cells of segment 0. With `fix` it restores up to eight wrong
//!   bits of each TMCC word.
//! - `show bts MODE GUARD IN=NAME` and `show cells [MODE GUARD] IN=NAME [fix]` write a line for each frame of broadcast packets,
//!   or of cells. With `fix` a line also says how many bits were restored.
//! - `sample NUMBER` makes an input of its own, sends it through all three with some cells spoiled, and writes what came.
//!
//! A PLAN is `SETTING {@FRAME [MODE GUARD] SETTING}`: what frame 0 sends, and at most seven switches, each from a frame on. A
//! switch that names no mode and guard interval keeps those before it. Where one brings others, `code` wants `v2`.
//!
//! It writes its product to standard output and ends with the status of its [`fault::Outcome`].
#![tactic(auto)]

mod arguments;
#[cfg(test)]
mod code_tests;
mod command;
mod cursor;
mod fault;
mod fields;
#[cfg(test)]
mod fix_tests;
mod grammar;
mod inputs;
#[cfg(test)]
mod line_tests;
mod lines;
#[cfg(test)]
mod partial_tests;
#[cfg(test)]
mod quiet_tests;
#[cfg(test)]
mod receive_tests;
#[cfg(test)]
mod refused_words_tests;
#[cfg(test)]
mod remux_tests;
mod run;
#[cfg(test)]
mod show_tests;
#[cfg(test)]
mod switch_tests;
#[cfg(test)]
mod switch_words_tests;
#[cfg(test)]
mod testing;
#[cfg(test)]
mod tests;
mod words;
#[cfg(test)]
mod words_tests;

use arguments::gather;
use edge_io::{FileShelf, StreamSink};
use isdbt_base::NoMemory;
use run::run;
use std::io;
use std::process::ExitCode;
use words::Words;

/// The status where a word finds no memory.
const NO_MEMORY: u8 = 14;

fn main(rt: HostRuntime) -> ExitCode {
    let alloc = rt.alloc();
    let mut words = Words::new(alloc);
    match gather(&rt, &mut words) {
        Ok(()) => {}
        Err(NoMemory) => return ExitCode::from(NO_MEMORY),
    }
    let mut shelf = FileShelf::new(&rt);
    let mut out = StreamSink::new(io::writer(&rt));
    let mut err = StreamSink::new(rt.stderr());
    let outcome = run(alloc, &words, &mut shelf, &mut out, &mut err);
    ExitCode::from(outcome.status())
}
