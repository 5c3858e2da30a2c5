//! Why a word is refused.

use isdbt_base::Layer;

/// Why a TMCC word is refused, in the order in which the causes are sought.
#[derive(Clone, Copy, Debug, PartialEq, Eq)]
pub enum TmccFault {
    /// B1 to B16 are neither sync word.
    Sync,
    /// B17 to B19 are not 000.
    SegmentType,
    /// B20 to B203 are not a multiple of the generator polynomial.
    Parity,
    /// B20, B21 are not 00.
    System,
    /// The field of this layer is refused, and of no layer before it: it has a code without meaning, no segments or more
    /// than 13; layer A is not used, or has other than one segment with partial reception; layer B is not used though
    /// C's field says other than that C is not used.
    LayerField(Layer),
    /// The used layers' segments have this sum and not 13.
    Segments(u32),
}
