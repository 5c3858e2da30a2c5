//! Buffers, and the pieces that are written into them.

ghost use Rattle.std.specs.Prelude.{◌≡◌, ◌+◌, ◌≤◌, ◌++◌, length, take, drop, replicate, vec_len, vec_items, IfOk};

use crate::memory::NoMemory;
use std::alloc::Global;

/// A buffer of so many zero bytes. Fails only if memory runs out.
pub fn zeros(alloc: Global, size: usize) -> Result<Vec<u8>, NoMemory>
    ensures size { IfOk result (λ bytes. vec_len bytes ≡ size) }
    ensures zero { IfOk result (λ bytes. vec_items bytes ≡ replicate size 0) }
{
    let bytes = vec![in alloc; 0; size]?;
    Ok(bytes)
}

/// Writes a piece behind the first `at` items of a buffer, and answers where it ends. The rest of the buffer stays.
pub fn put<T: Copy>(out: &mut [T], at: usize, part: &[T]) -> usize
    requires { at + length part.now ≤ length out.old }
    ensures end { result ≡ at + length part.now }
    ensures items { take result out.new ≡ take at out.old ++ part.now }
    ensures rest { drop result out.new ≡ drop result out.old }
{
    let end = at + part.len();
    out[at..end].copy_from_slice(part);
    end
}
