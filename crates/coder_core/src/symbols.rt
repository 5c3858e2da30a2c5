//! The bytes of a symbol.

ghost use Rattle.std.specs.Prelude.{◌≡◌, ◌+◌, ◌*◌, ◌≤◌, [], ◌∷◌, ◌++◌, length, take};
ghost use Rattle.std.specs.Int.{from_bool};
ghost use Rattle.coder_core.specs.Symbols.{cells_bytes, layers_symbol};

use cell_map::Cell;

/// Puts the two bytes of each cell, I and Q in two's complement, behind the first `at` bytes, and says where they end.
fn put_cells(out: &mut [u8], at: usize, cells: &[Cell]) -> usize
    requires { at + 2 * length cells.now ≤ length out.old }
    ensures end { result ≡ at + 2 * length cells.now }
    ensures bytes { take result out.new ≡ take at out.old ++ cells_bytes cells.now }
{
    for k in 0..cells.len() {
        let cell = cells[k];
        out[at + 2 * k] = cell.i.cast_unsigned();
        out[at + 2 * k + 1] = cell.q.cast_unsigned();
    }
    at + 2 * cells.len()
}

/// Puts a TMCC bit as a byte of its own behind the first `at` bytes, and says where it ends.
fn put_bit(out: &mut [u8], at: usize, bit: bool) -> usize
    requires { at + 1 ≤ length out.old }
    ensures end { result ≡ at + 1 }
    ensures bytes { take result out.new ≡ take at out.old ++ (from_bool bit ∷ []) }
{
    out[at] = u8::from(bit);
    at + 1
}

/// Puts a symbol behind the first `at` bytes, its TMCC bit and the cells of layers A, B and C, and says where it ends.
pub fn put_symbol(out: &mut [u8], at: usize, bit: bool, a: &[Cell], b: &[Cell], c: &[Cell]) -> usize
    requires { at + (1 + 2 * (length a.now + length b.now + length c.now)) ≤ length out.old }
    ensures end { result ≡ at + (1 + 2 * (length a.now + length b.now + length c.now)) }
    ensures bytes { take result out.new ≡ take at out.old ++ layers_symbol bit a.now b.now c.now }
{
    let at = put_bit(out, at, bit);
    let at = put_cells(out, at, a);
    let at = put_cells(out, at, b);
    put_cells(out, at, c)
}
