//! The definition as a plain program: the least of all lists of bits, found by trying them all.

use isdbt_base::{Rate, rate_pair};

/// A search over all lists of bits: the list in work, and the least so far with its cost.
#[derive(Drop)]
pub struct Search {
    path: [bool; 160],
    pub best: [bool; 160],
    least: u32,
}

/// The steps of a pattern of which X, and of which Y is sent, the first step lowest.
fn sent(rate: Rate) -> (u32, u32) {
    match rate {
        Rate::R12 => (0b1, 0b1),
        Rate::R23 => (0b01, 0b11),
        Rate::R34 => (0b101, 0b011),
        Rate::R56 => (0b10101, 0b01011),
        Rate::R78 => (0b1010001, 0b0101111),
    }
}

/// The bit some steps before a step of a path, and 0 before the first.
fn earlier(path: &[bool; 160], step: usize, back: usize) -> bool {
    step >= back && step - back < 160 && path[step - back]
}

/// Whether a bit that was read at a place is another.
fn differs(read: &[bool], place: usize, bit: bool) -> bool {
    match read.get(place) {
        Some(other) => *other != bit,
        None => false,
    }
}

/// What a step of a path costs, whose read bits begin at a place, and where the next step's begin.
fn step_cost(
    rate: Rate,
    path: &[bool; 160],
    step: usize,
    read: &[bool],
    at: usize,
) -> (u32, usize) {
    let (steps, _) = rate_pair(rate);
    let (sends_x, sends_y) = sent(rate);
    let phase = (step % steps as usize) as u32;
    let both = earlier(path, step, 0)
        ^ earlier(path, step, 2)
        ^ earlier(path, step, 3)
        ^ earlier(path, step, 6);
    let mut cost = 0u32;
    let mut next = at;
    if (sends_x >> phase) & 1 == 1 {
        cost += u32::from(differs(read, next, both ^ earlier(path, step, 1)));
        next = next.saturating_add(1);
    }
    if (sends_y >> phase) & 1 == 1 {
        cost += u32::from(differs(read, next, both ^ earlier(path, step, 5)));
        next = next.saturating_add(1);
    }
    (cost, next)
}

impl Search {
    pub fn start() -> Search {
        Search {
            path: [false; 160],
            best: [false; 160],
            least: u32::MAX,
        }
    }

    /// Whether the list in work comes before the best, read from the newest bit back, 0 before 1.
    fn comes_first(&self, steps: usize) -> bool {
        for back in 0..steps {
            let place = steps - 1 - back;
            if place < 160 && self.path[place] != self.best[place] {
                return self.best[place];
            }
        }
        false
    }

    /// Tries all lists that go on from the first bits of the list in work, which cost so much; leaves those that already cost
    /// more than the least so far.
    pub fn go(
        &mut self,
        rate: Rate,
        read: &[bool],
        steps: usize,
        step: usize,
        at: usize,
        cost: u32,
    ) {
        if cost > self.least {
            return;
        }
        if step >= steps || step >= 160 {
            if cost < self.least || self.comes_first(steps) {
                self.least = cost;
                self.best = self.path;
            }
            return;
        }
        self.path[step] = false;
        let (more, next) = step_cost(rate, &self.path, step, read, at);
        self.go(rate, read, steps, step + 1, next, cost.saturating_add(more));
        self.path[step] = true;
        let (more, next) = step_cost(rate, &self.path, step, read, at);
        self.go(rate, read, steps, step + 1, next, cost.saturating_add(more));
    }
}
