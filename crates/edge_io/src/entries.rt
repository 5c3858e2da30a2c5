//! Names and what they hold.

ghost use Rattle.std.specs.Prelude.{◌≡◌, ◌<◌, ◌+◌, Some, None, min, length, take, position, string_bytes, OnOk, OnErr, IfSome, IfNone};
ghost use Rattle.std.specs.Str.{bytes_eq};
ghost use Rattle.edge_io.specs.Entries.{told_content, bytes_at, rest_at, AddsEntry};

use isdbt_base::NoMemory;
use std::alloc::Global;

/// A name and the bytes that it holds.
#[derive(Drop)]
pub struct Entry {
    /// The name.
    pub name: String,
    /// The bytes that it holds.
    pub bytes: Vec<u8>,
}

/// Where a seat reads: which entry, and how many of its bytes were taken.
#[derive(Clone, Copy)]
pub struct Cursor {
    /// The index of the entry.
    pub entry: usize,
    /// How many of its bytes were taken.
    pub taken: usize,
}

/// Where the first entry with this name stands.
fn index_of(entries: &[Entry], name: &str) -> Option<usize>
    ensures { result ≡ position (λ entry. bytes_eq (string_bytes entry.name) name.now) entries.now }
{
    entries.iter().position(|entry| entry.name.as_str() == name)
}

/// The start of the first entry with this name.
pub fn start_of(entries: &[Entry], name: &str) -> Option<Cursor>
    ensures within { IfSome result (λ cursor. cursor.entry < length entries.now) }
    ensures start { IfSome result (λ cursor. cursor.taken ≡ 0) }
    ensures content { IfSome result (λ cursor. told_content entries.now name.now ≡ Some (rest_at entries.now cursor)) }
    ensures absent { IfNone result (told_content entries.now name.now ≡ None) }
{
    let entry = index_of(entries, name)?;
    Some(Cursor { entry, taken: 0 })
}

/// The bytes of the entry at an index.
fn bytes_at(entries: &[Entry], index: usize) -> &[u8]
    ensures { result.now ≡ bytes_at entries.now index }
{
    match entries.get(index) {
        None => &[],
        Some(entry) => &entry.bytes,
    }
}

/// Copies the first bytes of `bytes` to the front of the buffer: as many as fit, at most `most`.
fn copy_front(bytes: &[u8], most: usize, buf: &mut [u8]) -> usize
    ensures count { result ≡ min most (min (length buf.new) (length bytes.now)) }
    ensures copied { take result buf.new ≡ take result bytes.now }
{
    let count = most.min(buf.len()).min(bytes.len());
    buf[..count].copy_from_slice(&bytes[..count]);
    count
}

/// Reads on from a cursor: as many bytes as fit into the buffer, at most `most`.
pub fn read_on(entries: &[Entry], cursor: &mut Cursor, most: usize, buf: &mut [u8]) -> usize
    ensures count { result ≡ min most (min (length buf.new) (length (rest_at entries.now cursor.old))) }
    ensures copied { take result buf.new ≡ take result (rest_at entries.now cursor.old) }
    ensures moved { cursor.new ≡ record cursor.old { taken = cursor.old.taken + result } }
{
    let bytes = bytes_at(entries, cursor.entry);
    if cursor.taken >= bytes.len() {
        return 0;
    }
    let count = copy_front(&bytes[cursor.taken..], most, buf);
    cursor.taken += count;
    count
}

/// Adds an entry behind the others. Fails only if memory runs out, and changes nothing then.
pub fn add(
    alloc: Global,
    entries: &mut Vec<Entry>,
    name: &str,
    bytes: &[u8],
) -> Result<(), NoMemory>
    ensures ok { OnOk result (AddsEntry entries.old.items entries.new.items name.now bytes.now) }
    ensures err { OnErr result (entries.new.items ≡ entries.old.items) }
{
    let name = String::from_str(alloc, name)?;
    let bytes = bytes.to_vec(alloc)?;
    entries.push(Entry { name, bytes })?;
    Ok(())
}
