//! The inputs that a command names.

ghost use Rattle.std.specs.Prelude.{◌≡◌, ℕ, List, true, false, Some, None, OnOk, OnErr, IfErr, option_map};
ghost use Rattle.edge_io.specs.declared.shelf.Seat.{Seat as Place};
ghost use Rattle.edge_io.specs.Seats.{OthersKeep};
ghost use Rattle.edge_io.specs.Causes.{Rose, Opening};
ghost use Rattle.isdbt_cli.specs.Run.{layer_names, AreOpened, OpenStopped};

use edge_io::{Failed, Seat, Shelf};

/// Opens an input at a seat, if it is named.
fn open_if_named<H: Shelf>(seat: Seat, name: Option<&str>, shelf: &mut H) -> Result<(), Failed>
    requires { H.is_open shelf.old seat ≡ false }
    ensures names { H.holds shelf.new ≡ H.holds shelf.old }
    ensures other_left { OthersKeep seat (H.left shelf.old) (H.left shelf.new) }
    ensures other_open { OthersKeep seat (H.is_open shelf.old) (H.is_open shelf.new) }
    ensures opened { OnOk result ((n : List ℕ) → option_map (λ x. x.now) name.entry ≡ Some n → H.is_open shelf.new seat ≡ true) }
    ensures content { OnOk result ((n : List ℕ) → option_map (λ x. x.now) name.entry ≡ Some n → H.left shelf.new seat ≡ H.holds shelf.old n) }
    ensures unnamed { option_map (λ x. x.now) name.entry ≡ None → H.is_open shelf.new seat ≡ false }
    ensures closed { OnErr result (H.is_open shelf.new seat ≡ false) }
    ensures kept { OnOk result (H.faults shelf.new ≡ H.faults shelf.old) }
    ensures failed { OnErr result ((n : List ℕ) × (option_map (λ x. x.now) name.entry ≡ Some n)
        × Rose (H.faults shelf.old (Opening seat n)) (H.faults shelf.new (Opening seat n))) }
{
    match name {
        Some(name) => shelf.open(seat, name),
        None => Ok(()),
    }
}

/// Opens the inputs of layers A, B and C at their seats, A first, up to one that can't be opened, which is the `Err`.
pub fn open_inputs<H: Shelf>(
    a: &str,
    b: Option<&str>,
    c: Option<&str>,
    shelf: &mut H,
) -> Result<(), Seat>
    requires { (seat : Place) → H.is_open shelf.old seat ≡ false }
    ensures opened { OnOk result (AreOpened (layer_names a.now (option_map (λ x. x.now) b.entry) (option_map (λ x. x.now) c.entry)) (H.holds shelf.old) (H.left shelf.new) (H.is_open shelf.new)) }
    ensures kept { OnOk result (H.faults shelf.new ≡ H.faults shelf.old) }
    ensures failed { IfErr result (λ seat. (n : List ℕ) × (layer_names a.now (option_map (λ x. x.now) b.entry) (option_map (λ x. x.now) c.entry) seat ≡ Some n)
        × Rose (H.faults shelf.old (Opening seat n)) (H.faults shelf.new (Opening seat n))) }
    ensures stopped { IfErr result (λ seat. OpenStopped (layer_names a.now (option_map (λ x. x.now) b.entry) (option_map (λ x. x.now) c.entry)) (H.is_open shelf.new) seat) }
{
    match open_if_named(Seat::A, Some(a), shelf) {
        Ok(()) => {}
        Err(Failed) => return Err(Seat::A),
    }
    match open_if_named(Seat::B, b, shelf) {
        Ok(()) => {}
        Err(Failed) => return Err(Seat::B),
    }
    match open_if_named(Seat::C, c, shelf) {
        Ok(()) => Ok(()),
        Err(Failed) => Err(Seat::C),
    }
}
