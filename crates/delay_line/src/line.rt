//! One delay line.

ghost use Rattle.std.specs.Prelude.{◌≡◌, [], ◌∷◌, ◌++◌, length, replicate, IfOk};

use circular_buffer::HeapCircularBuffer;
use isdbt_base::NoMemory;
use std::alloc::Global;
use std::marker::Model;

/// A delay line: items go out in the order in which they came in, each so many items later.
///
/// Contracts see the items that it holds, the next to go out first.
#[derive(Drop)]
pub struct Line<T> {
    ring: HeapCircularBuffer<T>,
}

impl<T> Model for Line<T> {
    ghost use Rattle.std.specs.Prelude.{◌≡◌, List, length};

    ghost Value = { List T };

    ghost view = { λ l. l.ring.items };

    ghost invariant = { λ l. length l.ring.items ≡ l.ring.capacity };
}

impl<T: Copy> Line<T> {
    /// A line of so many items' delay, which holds as many fills. Fails only if memory runs out.
    pub fn open(alloc: Global, delay: u32, fill: T) -> Result<Line<T>, NoMemory>
        ensures { IfOk result (λ line. line ≡ replicate delay fill) }
    {
        let mut ring = HeapCircularBuffer::with_capacity(alloc, delay as usize)?;
        for _ in 0..delay {
            ring.push_back(fill);
        }
        Ok(Line { ring })
    }

    /// Takes an item in, and gives the one that goes out for it.
    pub fn step(&mut self, item: T) -> T
        ensures held { self.old ++ item ∷ [] ≡ result ∷ self.new }
        ensures count { length self.new ≡ length self.old }
    {
        match self.ring.push_back(item) {
            Some(first) => first,
            None => unreachable!(),
        }
    }

    /// Takes the items in, and writes those that go out for them.
    pub fn feed(&mut self, input: &[T], output: &mut [T])
        requires { length input.now ≡ length output.old }
        ensures held { self.old ++ input.now ≡ output.new ++ self.new }
        ensures count { length self.new ≡ length self.old }
    {
        let taken = self.ring.read_into(output);
        let (passing, kept) = input.split_at(input.len() - taken);
        output[taken..].copy_from_slice(passing);
        self.ring.fill_from_slice(kept);
    }

    /// How many items it holds: its delay.
    pub fn delay(&self) -> usize
        ensures { result ≡ length self.now }
    {
        self.ring.len()
    }
}
