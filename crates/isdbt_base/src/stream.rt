//! The versions of the stream of cells: a layout of this project's own.

use crate::kinds::{Guard, Mode};

/// How a stream of cells is written.
#[derive(Clone, Copy, Debug, PartialEq, Eq)]
pub struct Writing {
    /// Version 2: each frame has a head of eight bytes, which says its mode and guard interval. Version 1 has none.
    pub v2: bool,
}

/// The version of a stream of cells that is read.
#[derive(Clone, Copy, Debug, PartialEq, Eq)]
pub enum Form {
    /// Version 1: frames without heads, all of this mode and guard interval.
    V1 { mode: Mode, guard: Guard },
    /// Version 2: each frame's head says its mode and guard interval.
    V2,
}

/// How a stream of cells is read.
#[derive(Clone, Copy, Debug, PartialEq, Eq)]
pub struct Reading {
    /// The stream's version.
    pub form: Form,
    /// Each frame's TMCC word is corrected before it is read, where at most eight of its bits B20 to B203 are wrong.
    pub fix: bool,
}
