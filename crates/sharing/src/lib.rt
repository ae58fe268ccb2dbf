// The choices that all end states met on a level have: no other choice of the end set can give all pairs equal trees, so that only these are tried.
#![tactic(auto)]

ghost use Rattle.std.specs.Prelude.{◌≡◌, ◌&&◌, ℕ, ◌-◌, ◌<◌, length};
ghost use Rattle.automata.specs.Choice.{choices_most, has};
ghost use Rattle.meeting.specs.All.{met_by, all_met};
ghost use Rattle.sharing.specs.Shared.{has_choice_on, RowOpenOn, LevelOpenOn};

use lookup::choices_of;
use meeting::{Level, Sides, next_met};

// The mask with the choices only that all end states from `start` up to below `stop` that image state s meets have.
fn shared_state(sides: &Sides, met: &[u32], s: u16, start: u16, stop: u16, mask: u32) -> u32
    requires { RowOpenOn sides.now (length met.now) s start stop }
    ensures { (d : ℕ) → has result d ≡ has mask d && met_by (has_choice_on sides.now d) sides.now.wide met.now s start (stop - start) }
{
    let mut left = mask;
    let mut from = start;
    while let Some(e) = next_met(met, sides.wide, s, from, stop) {
        left &= choices_of(&sides.end, e);
        from = e + 1;
    }
    left
}

// The choices that all end states met on the level have.
pub fn shared_choices(sides: &Sides, met: &[u32], level: Level) -> u32
    requires { LevelOpenOn sides.now (length met.now) level }
    ensures { (d : ℕ) → d < choices_most → has result d ≡ all_met (has_choice_on sides.now d) sides.now.wide met.now level }
{
    let mut left = u32::MAX;
    for s in level.from..level.to {
        left = shared_state(sides, met, s, level.start, level.stop, left);
    }
    left
}
