//! The choices of which a transmission is made (ARIB STD-B31 chapter 3).

/// Transmission mode: 2048, 4096 or 8192 clocks of a symbol without its guard interval.
#[derive(Clone, Copy, Debug, PartialEq, Eq)]
pub enum Mode {
    /// 2048 clocks, 96 data carriers a segment.
    M1,
    /// 4096 clocks, 192 data carriers a segment.
    M2,
    /// 8192 clocks, 384 data carriers a segment.
    M3,
}

/// Guard interval ratio: 1/4, 1/8, 1/16 or 1/32 of the symbol without it.
#[derive(Clone, Copy, Debug, PartialEq, Eq)]
pub enum Guard {
    /// 1/4.
    G4,
    /// 1/8.
    G8,
    /// 1/16.
    G16,
    /// 1/32.
    G32,
}

/// Carrier modulation of a layer.
#[derive(Clone, Copy, Debug, PartialEq, Eq)]
pub enum Modulation {
    /// QPSK: 2 bits a cell.
    Qpsk,
    /// 16QAM: 4 bits a cell.
    Qam16,
    /// 64QAM: 6 bits a cell.
    Qam64,
}

/// Inner code rate of a layer: 1/2, 2/3, 3/4, 5/6 or 7/8.
#[derive(Clone, Copy, Debug, PartialEq, Eq)]
pub enum Rate {
    /// 1/2.
    R12,
    /// 2/3.
    R23,
    /// 3/4.
    R34,
    /// 5/6.
    R56,
    /// 7/8.
    R78,
}

/// TMCC code of a layer's time interleaving length: 000, 001, 010 or 011, whose length in symbols depends on the mode
///.
#[derive(Clone, Copy, Debug, PartialEq, Eq)]
pub enum DepthCode {
    /// 000: no interleaving.
    D0,
    /// 001: the shortest length.
    D1,
    /// 010: twice the length of D1.
    D2,
    /// 011: four times the length of D1.
    D3,
}

/// Hierarchical layer.
#[derive(Clone, Copy, Debug, PartialEq, Eq)]
pub enum Layer {
    /// Layer A, which is always used.
    A,
    /// Layer B.
    B,
    /// Layer C, which is used only with B.
    C,
}
