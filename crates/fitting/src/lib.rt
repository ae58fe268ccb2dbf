// The last level: every pair that is met must have equal leaves, under one choice of the image's word and one of the end set.
#![tactic(auto)]

ghost use Rattle.std.specs.Prelude.{◌≡◌, ◌<◌, length};
ghost use Rattle.amplitude.specs.Leaf.{same};
ghost use Rattle.automata.specs.Choice.{choices_most};
ghost use Rattle.automata.specs.Members.{choices};
ghost use Rattle.verdict.specs.Search.{fits_one};
ghost use Rattle.lookup.specs.Lookup.{pair_row, leaf_of};
ghost use Rattle.leafrows.specs.Value.{amp_is, InRange};
ghost use Rattle.leafrows.specs.Row.{row_amp};
ghost use Rattle.meeting.specs.All.{all_met};
ghost use Rattle.fitting.specs.Fit.{LeafRowOn, leaves_on, PairLeavesOn, LeafStageOn};

use equality::same;
use leafrows::{Amplitude, amplitude_at};
use lookup::transition;
use masks::next_choice;
use meeting::{Level, Sides, all_met};
use sharing::shared_choices;
use tables::{ROW_WIDTH, Table};

// The amplitude that row i names.
fn leaf_at(table: &Table, i: u16) -> Amplitude
    requires { LeafRowOn table.now i }
    ensures { (amp_is result ≡ row_amp table.now.coefs.now (pair_row table.now.rows.now i).0) × InRange result }
{
    let at = i as usize * ROW_WIDTH + 1;
    amplitude_at(table.coefs, table.rows[at] as usize)
}

// The k of row i.
fn scale_at(table: &Table, i: u16) -> u8
    requires { LeafRowOn table.now i }
    ensures { result ≡ (pair_row table.now.rows.now i).1 }
{
    let at = i as usize * ROW_WIDTH + 2;
    (table.rows[at] % 256) as u8
}

// The leaves of row i and of the end set's row j are equal.
pub fn fit_rows(sides: &Sides, i: u16, j: u16) -> bool
    requires { LeafRowOn sides.now.image i × LeafRowOn sides.now.end j }
    ensures { result ≡ same (leaf_of sides.now.image.rows.now sides.now.image.coefs.now i) (leaf_of sides.now.end.rows.now sides.now.end.coefs.now j) }
{
    let x = leaf_at(&sides.image, i);
    let y = leaf_at(&sides.end, j);
    let k = scale_at(&sides.image, i);
    let m = scale_at(&sides.end, j);
    same(k, x, m, y)
}

// The leaves of image state s and of end state e are equal.
fn fit_leaves(sides: &Sides, c: u8, d: u8, s: u16, e: u16) -> bool
    requires { PairLeavesOn sides.now s e × (c < choices_most) × (d < choices_most) }
    ensures { result ≡ leaves_on sides.now c d s e }
{
    let Some(i) = transition(&sides.image, s, c) else {
        return false;
    };
    let Some(j) = transition(&sides.end, e, d) else {
        return false;
    };
    fit_rows(sides, i, j)
}

// All pairs of the level that are met have equal leaves.
fn all_fit(sides: &Sides, met: &[u32], c: u8, d: u8, level: Level) -> bool
    requires { LeafStageOn sides.now (length met.now) level × (c < choices_most) × (d < choices_most) }
    ensures { result ≡ all_met (leaves_on sides.now c d) sides.now.wide met.now level }
{
    all_met(met, sides.wide, level, |s, e| fit_leaves(sides, c, d, s, e))
}

// Some one choice of the end set gives all pairs of the level that are met equal leaves.
pub fn fit_any(sides: &Sides, met: &[u32], c: u8, level: Level) -> bool
    requires { LeafStageOn sides.now (length met.now) level × (c < choices_most) }
    ensures { result ≡ fits_one (λ d. all_met (leaves_on sides.now c d) sides.now.wide met.now level) choices }
{
    let shared = shared_choices(sides, met, level);
    let mut from = 0;
    while let Some(d) = next_choice(shared, from) {
        if all_fit(sides, met, c, d, level) {
            return true;
        }
        from = d + 1;
    }
    false
}
