//! Labels of the last sixteen blocks, each on the survivors of all lanes, as they were read at one boundary.

ghost use Rattle.std.specs.Prelude.{◌≡◌, ℕ, ◌-◌, ◌%◌, ◌<◌, ◌≤◌, [], get_or, slice_index, replicate};

use crate::maps::looked_up;
use std::simd::prelude::*;

/// The labels that are kept.
#[derive(Drop)]
pub struct Kept {
    /// Of so many blocks, from the oldest on, they still serve.
    pub left: usize,
    /// Of each block its labels by the lanes at the boundary where they were read.
    pub labels: [[u8; 64]; 16],
    /// Of each lane the lane of its survivor at that boundary.
    pub front: [u8; 64],
}

impl Kept {
    /// No labels.
    pub fn start() -> Kept
        ensures { result.left ≡ 0 }
    {
        Kept {
            left: 0,
            labels: [[0; 64]; 16],
            front: [0; 64],
        }
    }

    /// One block more: the oldest serves no longer, and the map of the new one stands in front.
    #[inline(always)]
    pub fn push(&mut self, tags: u8x64)
        ensures left { self.new.left ≡ self.old.left - 1 }
        ensures labels { self.new.labels ≡ self.old.labels }
        ensures front { 1 ≤ self.old.left → (n : ℕ) → n < 64 → slice_index self.new.front n ≡ slice_index self.old.front (slice_index tags n % 64) }
    {
        if self.left == 0 {
            return;
        }
        self.left -= 1;
        let front = looked_up(u8x64::from_array(self.front), tags);
        self.front = front.to_array();
    }

    /// Of each lane now the label of the block at a place.
    #[inline(always)]
    pub fn read(&self, place: usize) -> u8x64
        requires { place < 16 }
        ensures { (n : ℕ) → n < 64 → slice_index result n ≡ slice_index (get_or self.now.labels place []) (slice_index self.now.front n % 64) }
    {
        let labels = u8x64::from_array(self.labels[place]);
        looked_up(labels, u8x64::from_array(self.front))
    }
}
