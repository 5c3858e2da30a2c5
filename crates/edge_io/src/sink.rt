//! Where output goes.

ghost use Rattle.std.specs.Prelude.{◌≡◌, ℕ, ◌<◌, ◌≤◌, List, length, take, IfSome, IfOk, IsOk, OnErr};
ghost use Rattle.std.specs.declared.option.Option.{Option};
ghost use Rattle.edge_io.specs.Known.{append_known};
ghost use Rattle.edge_io.specs.Causes.{HasCause};

use crate::Failed;

/// Takes bytes in order. It counts its faults.
///
/// Contracts see what was written and how much room there is, where the sink tells it.
pub trait Sink {
    /// What was written, where that is told.
    ghost written: { Self → Option (List ℕ) };

    /// How many bytes are taken without a failure, where that is told.
    ghost room: { Self → Option ℕ };

    /// How often a write has failed. The count never falls.
    ghost faults: { Self → ℕ };

    /// Takes the first bytes of the piece, at least one, and gives how many.
    ///
    /// A failure takes nothing, and is counted.
    fn write(&mut self, piece: &[u8]) -> Result<usize, Failed>
        requires { 0 < length piece.now }
        ensures some { IfOk result (λ n. 0 < n) }
        ensures bound { IfOk result (λ n. n ≤ length piece.now) }
        ensures appended { IfOk result (λ n. written self.new ≡ append_known (written self.old) (take n piece.now)) }
        ensures kept { OnErr result (written self.new ≡ written self.old) }
        ensures room { room self.new ≡ room self.old }
        ensures within_room { IfSome (room self.old) (λ limit. IfSome (written self.old) (λ bytes.
            length bytes < limit → IsOk result)) }
        ensures cause { HasCause (faults self.old) (faults self.new) result };
}
