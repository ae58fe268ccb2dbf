// How far a check is after some words of a block: the word that ends there, many members in one step, and whether the block is remembered. A member
// that is found from its block passes without a search, and a block is remembered only where each of its words was found from it.
#![tactic(auto)]

ghost use Rattle.std.specs.Prelude.{Bool, true, ◌≡◌, List, ◌∷◌, ℕ, suc, ◌+◌, ◌-◌, ◌*◌, ◌≤◌, ◌<◌, length, get_or};
ghost use Rattle.automata.specs.Choice.{choices_most, has};
ghost use Rattle.automata.specs.Members.{Member};
ghost use Rattle.fitting.specs.Fit.{LeafStageOn};
ghost use Rattle.relating.specs.Found.{found_on};
ghost use Rattle.reaching.specs.Reached.{all_reached, has_choice_on};
ghost use Rattle.remembering.specs.Memory.{levels_most, Saying};
ghost use Rattle.remembering.specs.Slots.{SameBlock, FitsIn, MemoryIn, SameSizes};
ghost use Rattle.walking.specs.declared.Kind.TheVariants.{Going};
ghost use Rattle.walking.specs.On.{passes_on, trees_on};
ghost use Rattle.walking.specs.Tallied.{tallied};
ghost use Rattle.walking.specs.Walk.{members_by};
ghost use Rattle.blocks.specs.Good.{all_of};
ghost use Rattle.outcomes.specs.On.{RowsThere, ends_on, BlockOf, OnlyMarks, EndingOn, CleanOn};

use meeting::Level;
use reaching::{ends_all, reached_choices};
use relating::leads;
use remembering::{Block, Slots};
use walking::{Kind, Tally, Task, stopped, tick};

// Bytes of a remembered row: one for each state of the image.
pub const CELLS: u16 = 1024;

// Where a walk stands: it has made `at` choices, so many qubits are left from the next level on, and p relations of this one stand in the stack.
#[derive(Clone, Copy)]
pub struct Place {
    pub at: u8,
    pub left: u8,
    pub level: Level,
    pub p: u16,
}

// The rows that a walk writes: marks of pairs and planes for the search of one member, the planes of its blocks, and the states reached.
#[derive(Drop)]
pub struct Walk<'a> {
    pub may: &'a mut [u32],
    pub met: &'a mut [u32],
    pub stack: &'a mut [u32],
    pub reached: &'a mut [u8],
}

impl Walk<'_> {
    // The block where the walk stands.
    pub fn block(&self, task: &Task, place: Place) -> Block<'_>
        ensures { BlockOf task.now self.now place result }
    {
        Block {
            from: place.level.from,
            to: place.level.to,
            p: place.p,
            wide: task.sides.wide,
            plane: task.plane,
            room: task.room,
            cells: CELLS,
            row: self.reached,
            stack: self.stack,
        }
    }

    // The choices that all states reached have.
    pub fn choices(&self, task: &Task, level: Level) -> u32
        requires { RowsThere task.now level (length self.now.reached.now) }
        ensures { (d : ℕ) → d < choices_most → has result d ≡ all_reached (has_choice_on task.now.sides.image d) self.now.reached.now level.from level.to }
    {
        reached_choices(&task.sides.image, self.reached, level.from, level.to)
    }

    // All states reached have a leaf with choice c.
    fn ends(&self, task: &Task, level: Level, c: u8) -> bool
        requires { RowsThere task.now level (length self.now.reached.now) × (c < choices_most) }
        ensures { result ≡ ends_on task.now level self.now.reached.now c }
    {
        ends_all(&task.sides.image, self.reached, c, level.from, level.to)
    }

    // A word whose last choice is c is found from the block.
    fn leads(&self, task: &Task, place: Place, c: u8) -> bool
        requires { LeafStageOn task.now.sides task.now.plane place.level × (c < choices_most) × (place.p * task.now.plane ≤ length self.now.stack.now) }
        ensures { (word : List ℕ) (at : ℕ) → get_or word at 0 ≡ c → result ≡ found_on task.now.sides word at 0 task.now.plane self.now.stack.now place.p place.level }
    {
        leads(&task.sides, self.stack, task.plane, place.p, c, place.level)
    }
}

// How far the check is after some words of a block, and whether each of them was found from the block.
#[derive(Clone, Copy)]
pub struct Outcome {
    pub tally: Tally,
    pub clean: bool,
}

// Whether the check goes on and each word was found from the block.
fn settled(r: Outcome) -> bool
    ensures { result ≡ true → (r.clean ≡ true) × (r.tally.kind ≡ Going) }
{
    r.clean && !stopped(r.tally)
}

// m members in a row that all pass: the allowance b is tested as if they were examined one by one.
pub fn skip(b: u32, t: Tally, m: u32) -> Tally
    ensures { (passes : Member → Bool) (ms : List Member) → length ms ≡ m → all_of passes ms ≡ true → result ≡ tallied passes b t ms }
{
    if stopped(t) {
        return t;
    }
    if m == 0 {
        return t;
    }
    if t.count >= b {
        return Tally {
            kind: Kind::Undecided,
            ..t
        };
    }
    if b - t.count < m {
        return Tally {
            kind: Kind::Undecided,
            count: b,
            ..t
        };
    }
    Tally {
        count: t.count + m,
        ..t
    }
}

// The word's last choice is c: it is a member's word if all states reached have a leaf with it. A member that is found from the block passes; the
// search decides on another.
pub fn finish(
    task: &Task,
    walk: &mut Walk,
    place: Place,
    root: u16,
    c: u8,
    word: [u8; 21],
    t: Tally,
) -> Outcome
    requires { EndingOn task.now walk.old place root word c }
    ensures tally { result.tally ≡ tallied (passes_on task.now) task.now.allowance t (members_by root word (task.now.n + 1) 0 (λ (v : List ℕ). trees_on task.now task.now.n 0 walk.old.reached.now place.level.from place.level.to (c ∷ v))) }
    ensures clean { result.clean ≡ true → CleanOn task.now task.now.n 0 place walk.old.reached.now walk.old.stack.now c (c + 1) }
    ensures others { OnlyMarks walk.old walk.new }
{
    if !walk.ends(task, place.level, c) {
        return Outcome {
            tally: t,
            clean: true,
        };
    }
    if walk.leads(task, place, c) {
        let tally = skip(task.allowance, t, 1);
        return Outcome { tally, clean: true };
    }
    let tally = tick(task, walk.may, walk.met, root, word, t);
    Outcome {
        tally,
        clean: false,
    }
}

// A block that was visited is remembered, if each of its words was found from it, with the members that were counted since `before`.
pub fn remember(slots: &mut Slots, at: u8, block: &Block, before: u32, r: Outcome)
    requires { FitsIn slots.old block.now at × (levels_most ≤ length slots.old.turn.now) × (r.tally.kind ≡ Going → before ≤ r.tally.count) }
    ensures sizes { SameSizes slots.old slots.new }
    ensures memory { (low : ℕ → ℕ) (good : Saying) → ((i : ℕ) → i < levels_most → low i ≤ low (suc i)) → block.now.from ≡ low at → block.now.to ≡ low (suc at)
        → MemoryIn slots.old block.now low good
        → (r.clean ≡ true → r.tally.kind ≡ Going → (row' stack' : List ℕ) → SameBlock block.now row' stack' → good at block.now.p row' stack' (r.tally.count - before) ≡ true)
        → MemoryIn slots.new block.now low good }
{
    if !settled(r) {
        return;
    }
    let m = r.tally.count - before;
    slots.keep(at, block, m);
}
