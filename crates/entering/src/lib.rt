// The walk that remembers, level by level. At each level it carries a block: the states reached, and relations to end states. Where each word that
// went on from a block was found from its relations, the block is remembered with the number of its members; met again, all of them pass, and
// they are counted in one step.
#![tactic(auto)]

ghost use Rattle.std.specs.Prelude.{◌≡◌, List, ◌∷◌, ℕ, ◌+◌, ◌<◌, get_or};
ghost use Rattle.automata.specs.Choice.{choices_most};
ghost use Rattle.remembering.specs.Slots.{SameSizes};
ghost use Rattle.walking.specs.On.{passes_on, trees_on, branch_on, visit_on, root_on};
ghost use Rattle.walking.specs.Tallied.{tallied};
ghost use Rattle.walking.specs.Walk.{members_by};
ghost use Rattle.outcomes.specs.On.{SameRows};
ghost use Rattle.entering.specs.On.{MemoryOn, StartedOn, EnteredOn, StrodeOn};

use batching::{Step, batch};
use judging::begin_from;
use masks::next_choice;
use matching::next_level;
use meeting::Level;
use outcomes::{Outcome, Place, Walk, finish, remember, skip};
use reaching::{reach, reach_next, reach_none};
use remembering::Slots;
use walking::{Tally, Task, stopped};

// The members whose words go on from the block with choice c.
#[cycle(branch_descend_enter_visit)]
fn branch(
    task: &Task,
    walk: &mut Walk,
    slots: &mut Slots,
    place: Place,
    root: u16,
    c: u8,
    word: [u8; 21],
    t: Tally,
) -> Outcome
    requires entered { EnteredOn task.now walk.old slots.old place root word }
    requires choice { c < choices_most }
    ensures tally { result.tally ≡ tallied (passes_on task.now) task.now.allowance t (branch_on task.now root word place.at place.left walk.old.reached.now place.level.from place.level.to c) }
    ensures strode { StrodeOn task.now place walk.old walk.new slots.old.count slots.new c (c + 1) result.clean }
    ensures rows { SameRows walk.old walk.new }
    ensures sizes { SameSizes slots.old slots.new }
{
    let mut longer = word;
    longer[place.at as usize] = c;
    if place.left == 0 {
        return finish(task, walk, place, root, c, longer, t);
    }
    descend(task, walk, slots, place, root, c, longer, t)
}

// The same on a level that is not the last, with the word's choice in its place: the block of the next level.
#[cycle(branch_descend_enter_visit)]
fn descend(
    task: &Task,
    walk: &mut Walk,
    slots: &mut Slots,
    place: Place,
    root: u16,
    c: u8,
    word: [u8; 21],
    t: Tally,
) -> Outcome
    requires entered { EnteredOn task.now walk.old slots.old place root word }
    requires choice { c < choices_most }
    requires letter { get_or word place.at 0 ≡ c }
    requires some { place.left ≡ 0 → ⊥ }
    ensures tally { result.tally ≡ tallied (passes_on task.now) task.now.allowance t (members_by root word (place.at + 1) place.left (λ (v : List ℕ). trees_on task.now place.at place.left walk.old.reached.now place.level.from place.level.to (c ∷ v))) }
    ensures strode { StrodeOn task.now place walk.old walk.new slots.old.count slots.new c (c + 1) result.clean }
    ensures rows { SameRows walk.old walk.new }
    ensures sizes { SameSizes slots.old slots.new }
{
    let level = place.level;
    let next = next_level(&task.sides, place.at, level);
    if !reach_next(
        &task.sides.image,
        walk.reached,
        c,
        level.from,
        level.to,
        next.to,
    ) {
        return Outcome {
            tally: t,
            clean: true,
        };
    }
    let step = Step {
        sides: task.sides,
        may: task.free,
        c,
        level,
        next,
        plane: task.plane,
        room: task.room,
    };
    let below = batch(&step, walk.stack, place.p, walk.met, 0);
    let there = Place {
        at: place.at + 1,
        left: place.left - 1,
        level: next,
        p: below.count,
    };
    enter(task, walk, slots, there, root, word, t)
}

// The members whose words go on from a block: all at once if the block is remembered.
#[cycle(branch_descend_enter_visit)]
fn enter(
    task: &Task,
    walk: &mut Walk,
    slots: &mut Slots,
    place: Place,
    root: u16,
    word: [u8; 21],
    t: Tally,
) -> Outcome
    requires { EnteredOn task.now walk.old slots.old place root word }
    ensures tally { result.tally ≡ tallied (passes_on task.now) task.now.allowance t (visit_on task.now root word place.at place.left walk.old.reached.now place.level.from place.level.to) }
    ensures strode { StrodeOn task.now place walk.old walk.new slots.old.count slots.new 0 choices_most result.clean }
    ensures rows { SameRows walk.old walk.new }
    ensures sizes { SameSizes slots.old slots.new }
{
    if let Some(known) = slots.find(place.at, &walk.block(task, place)) {
        let tally = skip(task.allowance, t, known);
        return Outcome { tally, clean: true };
    }
    let r = visit(task, walk, slots, place, root, word, t);
    remember(slots, place.at, &walk.block(task, place), t.count, r);
    r
}

// The members whose words go on from a block, choice after choice: those only that all states reached have.
#[cycle(branch_descend_enter_visit)]
fn visit(
    task: &Task,
    walk: &mut Walk,
    slots: &mut Slots,
    place: Place,
    root: u16,
    word: [u8; 21],
    t: Tally,
) -> Outcome
    requires { EnteredOn task.now walk.old slots.old place root word }
    ensures tally { result.tally ≡ tallied (passes_on task.now) task.now.allowance t (visit_on task.now root word place.at place.left walk.old.reached.now place.level.from place.level.to) }
    ensures strode { StrodeOn task.now place walk.old walk.new slots.old.count slots.new 0 choices_most result.clean }
    ensures rows { SameRows walk.old walk.new }
    ensures sizes { SameSizes slots.old slots.new }
{
    let shared = walk.choices(task, place.level);
    let mut so_far = t;
    let mut clean = true;
    let mut from = 0;
    while let Some(c) = next_choice(shared, from) {
        if stopped(so_far) {
            return Outcome {
                tally: so_far,
                clean: false,
            };
        }
        let r = branch(task, walk, slots, place, root, c, word, so_far);
        so_far = r.tally;
        clean = clean & r.clean;
        from = c + 1;
    }
    Outcome {
        tally: so_far,
        clean,
    }
}

// The members of one root.
pub fn visit_root(task: &Task, walk: &mut Walk, slots: &mut Slots, root: u16, t: Tally) -> Tally
    requires started { StartedOn task.now walk.old slots.old }
    requires rooted { root < get_or task.now.sides.image.counts.now 0 0 }
    ensures tally { result ≡ tallied (passes_on task.now) task.now.allowance t (root_on task.now root) }
    ensures memory { MemoryOn task.now slots.new }
    ensures rows { SameRows walk.old walk.new }
    ensures sizes { SameSizes slots.old slots.new }
{
    let level = Level {
        from: 0,
        to: task.sides.image.counts[0],
        start: 0,
        stop: task.sides.end.counts[0],
    };
    reach_none(walk.reached, 0, level.to);
    reach(walk.reached, root);
    let start = begin_from(
        walk.stack,
        task.plane,
        task.room,
        task.sides.wide,
        task.free,
        walk.met,
        root,
        0,
        level,
    );
    let place = Place {
        at: 0,
        left: task.n,
        level,
        p: start.count,
    };
    let r = visit(task, walk, slots, place, root, [0; 21], t);
    r.tally
}
