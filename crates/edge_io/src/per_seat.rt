//! One value for each seat.

ghost use Rattle.std.specs.Prelude.{◌≡◌};
ghost use Rattle.edge_io.specs.declared.shelf.Seat.{Seat};

use crate::Seat;

/// One value for each seat.
#[derive(Clone, Copy, Drop)]
pub struct PerSeat<T> {
    /// Of the seat A.
    pub a: T,
    /// Of the seat B.
    pub b: T,
    /// Of the seat C.
    pub c: T,
    /// Of the seat In.
    pub input: T,
}

impl<T> PerSeat<T> {
    ghost use Rattle.edge_io.specs.PerSeat.{at_seat, with_seat};

    /// The same value at each seat.
    pub fn of(value: T) -> PerSeat<T>
    where
        T: Copy,
        ensures { (seat : Seat) → at_seat result seat ≡ value }
    {
        PerSeat {
            a: value,
            b: value,
            c: value,
            input: value,
        }
    }

    /// Gives a seat this value; the others keep theirs.
    pub fn set(&mut self, seat: Seat, value: T)
    where
        T: Drop,
        ensures { self.new ≡ with_seat self.old seat value }
    {
        match seat {
            Seat::A => self.a = value,
            Seat::B => self.b = value,
            Seat::C => self.c = value,
            Seat::In => self.input = value,
        }
    }

    /// The value of a seat.
    pub fn at(&self, seat: Seat) -> T
    where
        T: Copy,
        ensures { result ≡ at_seat self.now seat }
    {
        match seat {
            Seat::A => self.a,
            Seat::B => self.b,
            Seat::C => self.c,
            Seat::In => self.input,
        }
    }
}
