//! The last sixteen blocks of eight steps: where the survivors went in them.
//!
//! No survivor is moved. At the end of a block the tags of the lanes are a map: from each lane at the end to the lane at the
//! beginning and the block's first two bits; the other six bits of the block are the lane at the end itself. To go back from
//! all lanes at once, maps are composed. As soon as all lanes lead to one lane, all survivors are one path before it, and each
//! later survivor goes on from one of them: so the blocks before are known for as many steps as they are kept.
//!
//! Where they don't, each lane's labels of all the blocks are at hand, and are kept: the next fifteen boundaries compose no
//! map back, but one map in front, which leads the lanes there to those from which the labels were read.

ghost use Rattle.std.specs.Prelude.{◌≡◌, ℕ, ◌+◌, ◌-◌, ◌*◌, ◌<◌, ◌≤◌, List, [], drop, get_or, slice_index};
ghost use Rattle.viterbi_hard.specs.declared.received.Received.{Received};
ghost use Rattle.viterbi_hard.specs.States.{AreTags, IsLabel, path_at};

use crate::kept::Kept;
use crate::maps::{OWN_LANES, are_equal, label_of, labels_of, lanes_of, looked_up};
use std::simd::prelude::*;

/// The blocks up to the last boundary.
#[derive(Drop)]
pub struct Blocks {
    /// Of each block the tags at its end.
    maps: [[u8; 64]; 16],
    /// Of each block that is known the label: its eight bits, the newest lowest.
    labels: [u8; 16],
    /// The place of the oldest block, where the next is put; the others follow it round.
    oldest: usize,
    /// Of so many blocks, from the oldest on, all survivors have the same bits.
    pub known: usize,
    /// Where that is none: of each lane the label of its survivor's oldest block.
    table: [u8; 64],
    /// Labels that were read where no lane was met.
    kept: Kept,
}

impl Blocks {
    ghost use Rattle.viterbi_hard.specs.Blocks.{AllLead, AreKnown, AreLabels, HasKept, HasMaps, Lead, Traced, place_back};

    /// The blocks before the first step: zeros.
    pub fn start() -> Blocks
        ensures { Traced result [] }
    {
        Blocks {
            maps: [[0; 64]; 16],
            labels: [0; 16],
            oldest: 0,
            known: 0,
            table: [0; 64],
            kept: Kept::start(),
        }
    }

    /// The place of a block, so many before the newest.
    #[inline(always)]
    fn place(&self, back: usize) -> usize
        requires { back ≤ 15 }
        ensures place { result ≡ place_back self.now.oldest back }
        ensures within { result < 16 }
    {
        (self.oldest % 16 + 15 - back) % 16
    }

    /// Composes maps back from the last boundary, until all lanes lead to one or no block is left, and keeps the labels that it
    /// passes. Answers the lanes that they lead to, and how many blocks back.
    fn meet(&mut self) -> (u8x64, usize)
        ensures back { result.1 ≤ 16 }
        ensures lead { (rs : List Received) → HasMaps self.old rs → Lead result.0 (8 * result.1) rs }
        ensures met { result.1 < 16 → (i : ℕ) → i < 64 → slice_index result.0 i ≡ slice_index result.0 0 }
        ensures kept { (rs : List Received) → HasMaps self.old rs → (b : ℕ) → b < result.1 → AreLabels (get_or self.new.kept.labels (place_back self.old.oldest b) []) b rs }
        ensures maps { self.new.maps ≡ self.old.maps }
        ensures oldest { self.new.oldest ≡ self.old.oldest }
    {
        let mut lanes = u8x64::from_array(OWN_LANES);
        for back in 0..16usize {
            let place = self.place(back);
            let map = u8x64::from_array(self.maps[place]);
            let tags = looked_up(map, lanes);
            let labels = labels_of(lanes, tags);
            self.kept.labels[place] = labels.to_array();
            lanes = lanes_of(tags);
            if are_equal(lanes) {
                return (lanes, back + 1);
            }
        }
        (lanes, 16)
    }

    /// Reads the blocks that lie so many blocks back and more, where all survivors were in this lane.
    fn trace(&mut self, lane: u8, back: usize)
        requires { back ≤ 15 }
        ensures traced { (rs : List Received) → HasMaps self.old rs → AllLead lane (8 * back) rs → Traced self.new rs }
    {
        let mut end = lane % 64;
        for block in back..16usize {
            let place = self.place(block);
            let tag = self.maps[place][end as usize];
            self.labels[place] = label_of(end, tag);
            end = tag % 64;
        }
        self.known = 16 - back;
        self.kept.left = 0;
    }

    /// Reads the oldest block's label of each lane from those that are kept.
    fn read_kept(&mut self)
        ensures traced { (rs : List Received) → HasMaps self.old rs → HasKept self.old rs → 1 ≤ self.old.kept.left → self.old.kept.left ≤ 16 → Traced self.new rs }
    {
        let place = self.oldest % 16;
        let labels = self.kept.read(place);
        let all = labels.to_array();
        self.table = all;
        if are_equal(labels) {
            self.labels[place] = all[0];
            self.known = 1;
        } else {
            self.known = 0;
        }
    }

    /// Finds which blocks are known, or the labels of the oldest.
    fn search(&mut self)
        ensures traced { (rs : List Received) → HasMaps self.old rs → HasKept self.old rs → self.old.kept.left ≤ 16 → Traced self.new rs }
    {
        if self.kept.left > 0 {
            self.read_kept();
            return;
        }
        let (lanes, back) = self.meet();
        if back < 16 {
            let all = lanes.to_array();
            self.trace(all[0], back);
            return;
        }
        self.kept.front = OWN_LANES;
        self.kept.left = 16;
        self.read_kept();
    }

    /// Puts a block in the place of the oldest.
    pub fn push(&mut self, tags: u8x64)
        ensures traced { (rs : List Received) → Traced self.old (drop 8 rs) → AreTags tags 8 rs → Traced self.new rs }
    {
        let place = self.oldest % 16;
        self.maps[place] = tags.to_array();
        self.oldest = (place + 1) % 16;
        self.kept.push(tags);
        if self.known > 1 {
            self.known -= 1;
        } else {
            self.search();
        }
    }

    /// The label of the oldest block, where it is known.
    #[inline(always)]
    pub fn known_label(&self) -> u8
        ensures { (rs : List Received) → Traced self.now rs → 1 ≤ self.now.known → (n : ℕ) → n < 64 → IsLabel result (drop 120 (path_at rs n)) }
    {
        self.labels[self.oldest % 16]
    }

    /// The label of the oldest block on the survivor of the lane that a tag names, where it is not known.
    #[inline(always)]
    pub fn label_from(&self, tag: u8) -> u8
        ensures { (rs : List Received) → Traced self.now rs → self.now.known ≡ 0 → IsLabel result (drop 120 (path_at rs tag)) }
    {
        self.table[(tag % 64) as usize]
    }
}
