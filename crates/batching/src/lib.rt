// Relations of the next level in batches: from a place on, which is a relation of the level and a choice of the end set, while there is room.
// Between the places where a batch begins and ends no relation is left out that leads to a word and does not stand in the batch, so that a
// search over all batches is exact.
#![tactic(auto)]

ghost use Rattle.std.specs.Prelude.{◌≡◌, true, ℕ, ◌+◌, ◌*◌, ◌<◌, ◌≤◌, length, get_or};
ghost use Rattle.automata.specs.Choice.{choices_most};
ghost use Rattle.stepping.specs.Step.{Kept};
ghost use Rattle.relating.specs.Found.{plane_of};
ghost use Rattle.relating.specs.Planes.{Room};
ghost use Rattle.batching.specs.Fill.{GroundOn, GrownOn};
ghost use Rattle.batching.specs.Batch.{Stands, Joined, WholeOn, TookOn, BatchedOn};

use hinting::all_may;
use masks::next_choice;
use meeting::{Level, Sides};
use relating::{cell, copy_out, copy_words, words};
use sharing::shared_choices;
use stepping::step_down;

// One level down, by choice c of the image's word: the marks of the pairs that could match, both levels, the words of a plane, and the planes
// that there is room for.
#[derive(Clone, Copy)]
pub struct Step<'a> {
    pub sides: Sides<'a>,
    pub may: &'a [u32],
    pub c: u8,
    pub level: Level,
    pub next: Level,
    pub plane: u16,
    pub room: u16,
}

// The choice to go on from, and the relations there are.
#[derive(Clone, Copy)]
pub struct Turn {
    pub choice: u8,
    pub count: u16,
}

// The place to go on from, and the relations there are.
#[derive(Clone, Copy)]
pub struct Reached {
    pub place: u32,
    pub count: u16,
}

// If so, one of the first q planes has the row's words from `at` on, `count` of them.
fn stands(stack: &[u32], plane: u16, q: u16, row: &[u32], at: usize, count: usize) -> bool
    requires { (q * plane ≤ length stack.now) × (at + count ≤ plane) × (at + count ≤ length row.now) }
    ensures { result ≡ true → Stands stack.now plane q row.now at count }
{
    for j in 0..q {
        let start = cell(plane, j, at);
        let same = stack[start..start + count] == row[at..at + count];
        if same {
            return true;
        }
    }
    false
}

// The row's marks on the level become those of plane q, unless a plane before it has them. The planes there are then.
pub fn join(stack: &mut [u32], plane: u16, q: u16, wide: u16, row: &[u32], level: Level) -> u16
    requires { Room plane (length stack.old) q wide level (length row.now) × (q < 65535) }
    ensures { Joined plane wide stack.old q row.now level stack.new result }
{
    let from = words(wide, level.from);
    let count = words(wide, level.to) - from;
    if stands(stack, plane, q, row, from, count) {
        return q;
    }
    copy_words(row, from, stack, cell(plane, q, from), count);
    q + 1
}

// One level down from the relation in `scratch` by choice d of the end set: the relation becomes plane q, unless it leads to no word or stands
// there already. The planes there are then.
fn take_choice(step: &Step, stack: &mut [u32], q: u16, scratch: &mut [u32], d: u8) -> u16
    requires { GroundOn step.now (length scratch.old) × (q * step.now.plane + step.now.plane ≤ length stack.old) × (q < 65535) × (step.now.c < choices_most) × (d < choices_most) }
    ensures { GrownOn step.now stack.old q (q + 1) scratch.old stack.new result × Kept step.now.sides.wide scratch.old step.now.level.to scratch.new × WholeOn step.now stack.old q scratch.old d (d + 1) stack.new result }
{
    let goes = step_down(&step.sides, scratch, step.c, d, step.level, step.next);
    if !goes {
        return q;
    }
    let apt = all_may(step.may, scratch, step.sides.wide, step.next);
    if !apt {
        return q;
    }
    join(stack, step.plane, q, step.sides.wide, scratch, step.next)
}

// The same by each choice from `from` on that all end states met in `scratch` have, while there is room.
fn take_choices(step: &Step, stack: &mut [u32], q: u16, scratch: &mut [u32], from: u8) -> Turn
    requires { GroundOn step.now (length scratch.old) × (step.now.room * step.now.plane ≤ length stack.old) × (q ≤ step.now.room) × (step.now.c < choices_most) × (from < choices_most) }
    ensures { TookOn step.now stack.old q scratch.old from result.choice stack.new result.count }
{
    let shared = shared_choices(&step.sides, scratch, step.level);
    let mut r = q;
    let mut start = from;
    while let Some(d) = next_choice(shared, start) {
        if r == step.room {
            return Turn {
                choice: d,
                count: r,
            };
        }
        r = take_choice(step, stack, r, scratch, d);
        start = d + 1;
    }
    Turn {
        choice: 32,
        count: r,
    }
}

// The same from relation k.
fn take_from(step: &Step, stack: &mut [u32], q: u16, k: u16, scratch: &mut [u32], from: u8) -> Turn
    requires { GroundOn step.now (length scratch.old) × (step.now.room * step.now.plane ≤ length stack.old) × (q ≤ step.now.room) × (step.now.c < choices_most) × (from < choices_most) × (k < step.now.room) }
    ensures { TookOn step.now stack.old q (plane_of step.now.plane stack.old k) from result.choice stack.new result.count }
{
    copy_out(stack, step.plane, k, step.sides.wide, scratch, step.level);
    take_choices(step, stack, q, scratch, from)
}

// Relations of the next level from the first p relations of the level, by choice c of the image's word, from a place on: those that are there
// when the room is full or no place is left, and the place to go on from.
pub fn batch(step: &Step, stack: &mut [u32], p: u16, scratch: &mut [u32], from: u32) -> Reached
    requires { GroundOn step.now (length scratch.old) × (step.now.room * step.now.plane ≤ length stack.old) × (p ≤ step.now.room) × (step.now.c < choices_most) }
    ensures { BatchedOn step.now stack.old p from result.place stack.new result.count }
{
    let all = p as u32 * 32;
    let mut q: u16 = 0;
    let mut place = from;
    // A while: the place to go on from is what take_from says, and not the next one.
    while (place < all) & (q < step.room) {
        let k = place / 32;
        let turn = take_from(step, stack, q, k as u16, scratch, (place % 32) as u8);
        place = k * 32 + turn.choice as u32;
        q = turn.count;
    }
    Reached { place, count: q }
}
