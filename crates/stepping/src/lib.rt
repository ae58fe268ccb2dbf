// One level down, by one choice of the image's word and one of the end set: the children of every pair that is met are met, left with left and
// right with right. The choice fails where a state of such a pair has no transition with it. The level's own marks are not changed.
#![tactic(auto)]

ghost use Rattle.std.specs.Prelude.{◌≡◌, ◌-◌, ◌<◌, length};
ghost use Rattle.automata.specs.Choice.{choices_most};
ghost use Rattle.lookup.specs.Lookup.{pair_row};
ghost use Rattle.meeting.specs.All.{met_by, all_met};
ghost use Rattle.stepping.specs.Step.{Twice, Stepped, Gone, kids_on, KidsThereOn, ReadyOn, RowReadyOn, StageOn};

use lookup::transition;
use meeting::{Level, Sides, meet, meet_none, next_met};
use tables::ROW_WIDTH;

// The children of the image's row i and of the end set's row j meet, left with left and right with right.
fn meet_kids(sides: &Sides, met: &mut [u32], i: u16, j: u16)
    requires { KidsThereOn sides.now (length met.old) i j }
    ensures { Twice sides.now.wide met.old (pair_row sides.now.image.rows.now i) (pair_row sides.now.end.rows.now j) met.new }
{
    let rows = sides.image.rows;
    let endrows = sides.end.rows;
    let at = i as usize * ROW_WIDTH;
    let there = j as usize * ROW_WIDTH;
    meet(met, sides.wide, rows[at + 1], endrows[there + 1]);
    meet(met, sides.wide, rows[at + 2], endrows[there + 2]);
}

// A pair that is met.
fn step_kids(sides: &Sides, met: &mut [u32], c: u8, d: u8, s: u16, e: u16) -> bool
    requires { ((next : Level) × ReadyOn sides.now (length met.old) s e next) × (c < choices_most) × (d < choices_most) }
    ensures { (next : Level) → ReadyOn sides.now (length met.old) s e next
        → Stepped sides.now.wide met.old next (λ g. kids_on sides.now c d g s e) met.new result }
{
    let Some(i) = transition(&sides.image, s, c) else {
        return false;
    };
    let Some(j) = transition(&sides.end, e, d) else {
        return false;
    };
    meet_kids(sides, met, i, j);
    true
}

// All end states of the level that image state s meets.
fn step_state(sides: &Sides, met: &mut [u32], c: u8, d: u8, s: u16, start: u16, stop: u16) -> bool
    requires { ((next : Level) × RowReadyOn sides.now (length met.old) s start stop next) × (c < choices_most) × (d < choices_most) }
    ensures { (next : Level) → RowReadyOn sides.now (length met.old) s start stop next
        → Stepped sides.now.wide met.old next (λ g. met_by (kids_on sides.now c d g) sides.now.wide met.old s start (stop - start)) met.new result }
{
    let mut from = start;
    while let Some(e) = next_met(met, sides.wide, s, from, stop) {
        if !step_kids(sides, met, c, d, s, e) {
            return false;
        }
        from = e + 1;
    }
    true
}

// All image states of the level.
fn step_states(sides: &Sides, met: &mut [u32], c: u8, d: u8, level: Level) -> bool
    requires { ((next : Level) × StageOn sides.now (length met.old) level next) × (c < choices_most) × (d < choices_most) }
    ensures { (next : Level) → StageOn sides.now (length met.old) level next
        → Stepped sides.now.wide met.old next (λ g. all_met (kids_on sides.now c d g) sides.now.wide met.old level) met.new result }
{
    for s in level.from..level.to {
        if !step_state(sides, met, c, d, s, level.start, level.stop) {
            return false;
        }
    }
    true
}

// All pairs of the level: on the next level just their children are met, if all of them have their transitions.
pub fn step_down(sides: &Sides, met: &mut [u32], c: u8, d: u8, level: Level, next: Level) -> bool
    requires { StageOn sides.now (length met.old) level next × (c < choices_most) × (d < choices_most) }
    ensures { Gone sides.now.wide met.old next (λ g. all_met (kids_on sides.now c d g) sides.now.wide met.old level) met.new result }
{
    meet_none(met, sides.wide, next.from, next.to);
    step_states(sides, met, c, d, level)
}
