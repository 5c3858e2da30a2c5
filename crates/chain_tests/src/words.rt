//! Changed TMCC words in streams of cells. Bits of a word are named by their numbers, B0 to B203.

use crate::commands::{ROOM, ReceiveEnd, receive_headed, receive_into};
use crate::plans::SINGLE;
use crate::streams::{CELLS, SYMBOL, frame_at, slot_at, with_heads};
use edge_io::MemorySink;
use std::alloc::Global;
use std::test::Fail;
use tmcc_word::parity;

/// The bits of the countdown, which is 15 before it is changed.
pub const COUNTDOWN: &[usize] = &[22, 23, 24, 25];

/// The bits of the sync word, which is that of even frames where each bit of that of odd frames is turned over.
pub const SYNC: &[usize] = &[1, 2, 3, 4, 5, 6, 7, 8, 9, 10, 11, 12, 13, 14, 15, 16];

/// A change of the word of a frame: whether the present setting is announced as the next, bits that are turned over then, and
/// whether the parity is made to fit.
#[derive(Clone, Copy)]
pub struct Change {
    pub frame: usize,
    pub is_announced: bool,
    pub bits: &'static [usize],
    pub fits: bool,
}

/// The word of a frame of cells of mode 1.
pub fn word_at(cells: &[u8], frame: usize) -> [bool; 204] {
    word_of_symbols(frame_at(cells, CELLS, frame), SYMBOL)
}

/// The word of a frame of symbols of so many bytes.
pub fn word_of_symbols(frame: &[u8], size: usize) -> [bool; 204] {
    let mut word = [false; 204];
    for (bit, symbol) in word.iter_mut().zip(frame.chunks_exact(size.max(1))) {
        *bit = symbol[0] % 2 == 1;
    }
    word
}

/// Puts a word into a frame of cells of symbols of so many bytes.
pub fn put_word(cells: &mut [u8], size: usize, frame: usize, word: &[bool; 204]) {
    let symbols = cells
        .chunks_exact_mut(size.max(1))
        .skip(frame.wrapping_mul(204));
    for (symbol, bit) in symbols.zip(word) {
        symbol[0] = u8::from(*bit);
    }
}

/// Turns bits of a word over.
fn turn(word: &mut [bool; 204], bits: &[usize]) {
    for at in bits {
        if let Some(bit) = word.get_mut(*at) {
            *bit = !*bit;
        }
    }
}

/// Gives a word the present setting as the next too.
fn announce(word: &mut [bool; 204]) {
    let now = *word;
    for (to, bit) in word.iter_mut().skip(67).zip(now.iter().skip(27).take(40)) {
        *to = *bit;
    }
}

/// Gives a word the parity of its bits from B20 on.
pub fn fit(word: &mut [bool; 204]) {
    let mut bits = [false; 102];
    for (to, bit) in bits.iter_mut().zip(word.iter().skip(20)) {
        *to = *bit;
    }
    for (to, bit) in word.iter_mut().skip(122).zip(&parity(&bits)) {
        *to = *bit;
    }
}

/// Cells with a changed word.
pub fn changed_cells(alloc: Global, cells: &[u8], change: &Change) -> Result<Vec<u8>, Fail> {
    let mut word = word_at(cells, change.frame);
    if change.is_announced {
        announce(&mut word);
    }
    turn(&mut word, change.bits);
    if change.fits {
        fit(&mut word);
    }
    let mut changed = cells.to_vec(alloc)?;
    put_word(&mut changed, SYMBOL, change.frame, &word);
    Ok(changed)
}

/// Receives cells of mode 1 with guard interval 1/4 in version 1. Fails if they are received otherwise in version 2.
pub fn receive_single(alloc: Global, cells: &[u8]) -> Result<ReceiveEnd, Fail> {
    let out = MemorySink::new(alloc, ROOM)?;
    let ended = receive_into(alloc, SINGLE.mode, SINGLE.guard, cells, out)?;
    let headed = receive_headed(alloc, &with_heads(alloc, cells)?)?;
    if headed.answer != ended.answer || headed.out.bytes() != ended.out.bytes() {
        return Err(Fail::from("the versions are received otherwise"));
    }
    Ok(ended)
}

/// The first two bytes of the information of a slot.
pub fn information(frames: &[u8], slot: usize) -> &[u8] {
    slot_at(frames, slot).get(188..190).unwrap_or(&[])
}
