//! Sections of a symbol.

ghost use Rattle.std.specs.Prelude.{◌≡◌, ◌<◌, ◌≤◌, ◌+◌};
ghost use Rattle.segment_spread.specs.Places.{section_of};

/// Segments in a row whose cells are spread over one another.
#[derive(Clone, Copy, Debug, PartialEq, Eq)]
pub struct Section {
    /// Its first segment.
    pub first: u32,
    /// How many segments it has.
    pub segments: u32,
}

/// The section of a segment.
#[inline]
pub fn section_of(partial: bool, segment: u32) -> Section
    requires { segment < 13 }
    ensures value { result ≡ section_of partial segment }
    ensures least { result.first ≤ segment }
    ensures most { segment < result.first + result.segments }
    ensures all { result.first + result.segments ≤ 13 }
{
    if !partial {
        return Section {
            first: 0,
            segments: 13,
        };
    }
    if segment == 0 {
        return Section {
            first: 0,
            segments: 1,
        };
    }
    Section {
        first: 1,
        segments: 12,
    }
}
