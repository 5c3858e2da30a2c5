//! Cells.

/// A cell: the values of its in-phase and its quadrature axis. Those that are sent are odd, from -7 to 7.
#[derive(Clone, Copy, Debug, PartialEq, Eq)]
pub struct Cell {
    /// In-phase axis.
    pub i: i8,
    /// Quadrature axis.
    pub q: i8,
}
