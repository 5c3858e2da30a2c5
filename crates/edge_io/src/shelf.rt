//! Inputs: names that hold bytes, and four seats at which a name is read.

ghost use Rattle.std.specs.Prelude.{◌≡◌, ℕ, ◌<◌, ◌≤◌, List, [], Bool, true, false, length, take, OnOk, OnErr, IfOk, IfSome};
ghost use Rattle.std.specs.declared.option.Option.{Option};
ghost use Rattle.edge_io.specs.Known.{drop_known};
ghost use Rattle.edge_io.specs.declared.shelf.Seat.{Seat};
ghost use Rattle.edge_io.specs.Causes.{Cause, Opening, Reading, ShelfCause};
ghost use Rattle.edge_io.specs.Seats.{OthersKeep};

/// Where a command reads an input: one seat for each layer, and one for a lone input.
#[derive(Clone, Copy, Debug, PartialEq, Eq)]
pub enum Seat {
    /// The seat of layer A.
    A,
    /// The seat of layer B.
    B,
    /// The seat of layer C.
    C,
    /// The seat of a lone input.
    In,
}

/// A call to the outside failed.
#[derive(Clone, Copy, Debug, PartialEq, Eq)]
pub struct Failed;

/// Names that hold bytes, and four seats at which a name is read. It counts its faults.
///
/// A seat is opened once and stays open. Contracts see what a name holds and what a seat has left,
/// where the shelf tells it.
pub trait Shelf {
    /// What a name holds, where that is told.
    ghost holds: { Self → List ℕ → Option (List ℕ) };

    /// What a seat has left, where that is told.
    ghost left: { Self → Seat → Option (List ℕ) };

    /// Whether a seat was opened.
    ghost is_open: { Self → Seat → Bool };

    /// How often each kind of call has failed. No count falls.
    ghost faults: { Self → Cause → ℕ };

    /// Lets a seat that isn't open read what the name holds, from its first byte.
    ///
    /// A failure leaves the seat as it was, and is counted for this seat and name.
    fn open(&mut self, seat: Seat, name: &str) -> Result<(), Failed>
        requires { is_open self.old seat ≡ false }
        ensures names { holds self.new ≡ holds self.old }
        ensures other_left { OthersKeep seat (left self.old) (left self.new) }
        ensures other_open { OthersKeep seat (is_open self.old) (is_open self.new) }
        ensures opened { OnOk result (is_open self.new seat ≡ true) }
        ensures content { OnOk result (left self.new seat ≡ holds self.old name.now) }
        ensures closed { OnErr result (is_open self.new seat ≡ false) }
        ensures kept { OnErr result (left self.new seat ≡ left self.old seat) }
        ensures cause { ShelfCause (Opening seat name.now) (faults self.old) (faults self.new) result };

    /// Takes the first bytes that are left at an open seat into the front of the buffer, and gives
    /// how many. `Ok(0)` is the end.
    ///
    /// A failure takes nothing, and is counted for this seat. What the buffer holds then isn't said.
    fn read(&mut self, seat: Seat, buf: &mut [u8]) -> Result<usize, Failed>
        requires open { is_open self.old seat ≡ true }
        requires room { 0 < length buf.old }
        ensures names { holds self.new ≡ holds self.old }
        ensures other_left { OthersKeep seat (left self.old) (left self.new) }
        ensures still_open { is_open self.new ≡ is_open self.old }
        ensures bound { IfOk result (λ n. n ≤ length buf.new) }
        ensures taken { IfOk result (λ n. left self.new seat ≡ drop_known n (left self.old seat)) }
        ensures copied { IfOk result (λ n. IfSome (left self.old seat) (λ bytes. take n buf.new ≡ take n bytes)) }
        ensures within { IfOk result (λ n. IfSome (left self.old seat) (λ bytes. n ≤ length bytes)) }
        ensures end { IfOk result (λ n. n ≡ 0 → IfSome (left self.old seat) (λ bytes. bytes ≡ [])) }
        ensures kept { OnErr result (left self.new seat ≡ left self.old seat) }
        ensures cause { ShelfCause (Reading seat) (faults self.old) (faults self.new) result };
}
