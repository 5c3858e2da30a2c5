//! What is asked of a stream of cells.

ghost use Rattle.std.specs.Prelude.{◌≡◌};
ghost use Rattle.seg_receiver.specs.Aims.{aim_of};

/// What is written of each frame of a stream of cells.
#[derive(Clone, Copy, Debug, PartialEq, Eq)]
pub enum Aim {
    /// The broadcast packets of all layers.
    Full,
    /// Layer A's packets: partial reception.
    Partial,
    /// A line that tells what the TMCC word says.
    Lines,
}

/// The aim of a reception, in full or partial.
pub fn aim_of(partial: bool) -> Aim
    ensures { result ≡ aim_of partial }
{
    if partial { Aim::Partial } else { Aim::Full }
}
