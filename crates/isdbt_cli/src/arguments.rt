//! The words that the program was called with.

ghost use Rattle.std.specs.Prelude.{◌≤◌, IfOk, IfSome, vec_len};

use crate::words::Words;
use isdbt_base::NoMemory;
use std::env::{Env, FillError};

/// Bytes that a word has room for at first.
const ROOM: usize = 4096;

/// Adds the program's arguments behind its own name to the words, one by one. An argument that is not text is added as the
/// empty word.
pub fn gather(rt: &(impl Env + AllocGlobal), words: &mut Words) -> Result<(), NoMemory> {
    let mut buf = vec![in rt.alloc(); 0; ROOM]?;
    for index in 1..usize::MAX {
        let Some(len) = read_argument(rt, index, &mut buf)? else {
            return Ok(());
        };
        match str::from_utf8(&buf[..len]) {
            Ok(word) => words.push(word)?,
            Err(_) => words.push("")?,
        }
    }
    Ok(())
}

/// Reads an argument to the front of the buffer, which grows until it has room for it, and answers its length, or None
/// where there is no such argument.
fn read_argument(rt: &impl Env, index: usize, buf: &mut Vec<u8>) -> Result<Option<usize>, NoMemory>
    ensures { IfOk result (λ found. IfSome found (λ len. len ≤ vec_len buf.new)) }
{
    for _ in 0..usize::BITS {
        match rt.arg(index, buf) {
            Ok(len) => return Ok(Some(len)),
            Err(FillError::NotPresent) => return Ok(None),
            Err(FillError::TooLong) => {
                let len = buf.len();
                buf.resize(len.saturating_mul(2), 0)?;
            }
        }
    }
    Err(NoMemory)
}
