//! The numbers of a layer and of its frames.

/// Numbers of a layer: its segments, the bits of a cell (2, 4 or 6), the steps of the inner rate (1, 2, 3, 5 or 7, of which one
/// bit more is sent), and the time interleaving length in symbols.
#[derive(Clone, Copy, Drop)]
pub struct LayerScale {
    pub segments: usize,
    pub bits: usize,
    pub steps: usize,
    pub length: usize,
}

/// A layer's numbers and those of its frames: the data carriers of a segment, the frames, and the layer's first segment.
#[derive(Clone, Copy, Drop)]
pub struct Scale {
    pub carriers: usize,
    pub frames: usize,
    pub first: usize,
    pub layer: LayerScale,
}

impl Scale {
    /// The layer's cells in a symbol.
    pub fn width(&self) -> usize {
        self.layer.segments.wrapping_mul(self.carriers)
    }

    /// The layer's coded bits in a frame.
    pub fn frame_bits(&self) -> usize {
        self.width().wrapping_mul(self.layer.bits).wrapping_mul(204)
    }

    /// How often the pattern of the inner rate is sent in a frame.
    pub fn frame_patterns(&self) -> usize {
        quotient(self.frame_bits(), self.layer.steps.wrapping_add(1))
    }

    /// The layer's packets in a frame.
    pub fn frame_packets(&self) -> usize {
        self.frame_patterns().wrapping_mul(self.layer.steps) / 8 / 204
    }
}

/// The quotient, or 0 by 0.
pub fn quotient(a: usize, b: usize) -> usize {
    a.checked_div(b).unwrap_or(0)
}

/// The remainder, or 0 by 0.
pub fn remainder(a: usize, b: usize) -> usize {
    a.checked_rem(b).unwrap_or(0)
}

/// The byte at a place, or 0.
pub fn byte_at(bytes: &[u8], place: usize) -> u8 {
    bytes.get(place).copied().unwrap_or(0)
}
