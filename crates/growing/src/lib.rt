// Document 01, "numbered by first mention": a level of a gate's result grows by one record, its children mentioned left first. The records go
// into the rest of the lent table; where the bounds would be passed the level is given up, since its result is refused.
#![tactic(auto)]

ghost use Rattle.std.specs.Prelude.{eqb};
ghost use Rattle.stepwise.specs.Grow as step;
ghost use Rattle.growing.specs.Growing.{level_in, Growing, Kept, Grew};

use names::mention;
use records::Tr;
use tables::put_row;

// How many rows of this level are written, and how many states of the next one are mentioned.
#[derive(Clone, Copy)]
pub struct Progress {
    pub rows: u16,
    pub keys: u16,
}

// How many rows and next states may be, and the number of the first next state.
#[derive(Clone, Copy)]
pub struct Most {
    pub rows: u16,
    pub keys: u16,
    pub base: u16,
}

// A level under construction: the rest of the lent table, the keys of the next level's states and the chains through them, what is written there,
// and the most that may be. Keys and chains stand here as slices, since a caller learns nothing of slices that it lent through a struct in a struct.
#[derive(Drop)]
pub struct NewLevel<'a> {
    pub rows: &'a mut [u16],
    pub masks: &'a mut [u32],
    pub keys: &'a mut [u64],
    pub link: &'a mut [u16],
    pub heads: &'a mut [u16],
    pub done: Progress,
    pub most: Most,
}

impl NewLevel<'_> {
    // One record more of a state, with the stored keys of its left and its right child; None where the bounds would be passed. Inline, so that a
    // level's slices and counts are not read and written back at each record.
    #[inline(always)]
    pub fn grow(&mut self, state: u16, mask: u32, first: u64, second: u64) -> Option<()>
        requires { Growing self.old }
        ensures grew { Grew self.new result self.old.most (step.grow eqb self.old.most.base state mask first second (level_in self.old)) }
        ensures kept { Kept self.old self.new }
    {
        if self.done.rows == self.most.rows {
            return None;
        }
        let l = mention(self.keys, self.link, self.heads, self.done.keys, first);
        let r = mention(self.keys, self.link, self.heads, l.count, second);
        if self.most.keys < r.count {
            return None;
        }
        let row = Tr {
            state,
            mask,
            left: self.most.base + l.place,
            right: self.most.base + r.place,
        };
        put_row(self.rows, self.masks, self.done.rows as usize, row);
        self.done = Progress {
            rows: self.done.rows + 1,
            keys: r.count,
        };
        Some(())
    }
}
