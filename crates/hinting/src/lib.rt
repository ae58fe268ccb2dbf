// Which pairs could match at all under the image's word, level by level from the leaves up, each pair with end choices of its own. A pair that
// could not is met by no word of the end set that fits, so that the search leaves such a choice at once. Marks that say too much would only
// cost time.
#![tactic(auto)]

ghost use Rattle.std.specs.Prelude.{◌≡◌, true, false, ℕ, ◌+◌, ◌<◌, ◌≤◌, length, get_or};
ghost use Rattle.automata.specs.Choice.{choices_most};
ghost use Rattle.meeting.specs.Met.{is_met};
ghost use Rattle.meeting.specs.All.{all_met};
ghost use Rattle.lookup.specs.Lookup.{pair_row};
ghost use Rattle.stepping.specs.Step.{KidsThereOn};
ghost use Rattle.hinting.specs.Hint.{both_marked, EndRowsOn, EndFitsOn, KidRowsOn, KidsMayOn, LeafHintOn, KidsHintOn, PairReadyOn, GroundOn, HintedOn, LevelThere};

use fitting::fit_rows;
use lookup::transition;
use meeting::{Level, Sides, all_met, is_met, meet_where};
use tables::{ROW_WIDTH, Table};

// Some row of state s passes the test.
pub fn any_row<F: Fn(u16) -> bool>(table: &Table, s: u16, passes: F) -> bool
    requires begun { s + 1 < length table.now.first.now }
    requires asked { (i : ℕ) → get_or table.now.first.now s 0 ≤ i → i < get_or table.now.first.now (s + 1) 0 → F.pre passes i }
    ensures { result ≡ false → (i : ℕ) → get_or table.now.first.now s 0 ≤ i → i < get_or table.now.first.now (s + 1) 0 → F.post passes i false }
{
    let from = table.first[s as usize];
    let to = table.first[s as usize + 1];
    for i in from..to {
        if passes(i) {
            return true;
        }
    }
    false
}

// Some row of end state e has a leaf equal to that of row i.
pub fn end_fits(sides: &Sides, i: u16, e: u16) -> bool
    requires { EndRowsOn sides.now i e }
    ensures { EndFitsOn sides.now i e → result ≡ true }
{
    any_row(&sides.end, e, |j| fit_rows(sides, i, j))
}

// The children of the image's row i and of the end set's row j are marked, left with left and right with right.
fn kids_marked(sides: &Sides, may: &[u32], i: u16, j: u16) -> bool
    requires { KidsThereOn sides.now (length may.now) i j }
    ensures { result ≡ both_marked sides.now.wide may.now (pair_row sides.now.image.rows.now i) (pair_row sides.now.end.rows.now j) }
{
    let rows = sides.image.rows;
    let endrows = sides.end.rows;
    let at = i as usize * ROW_WIDTH;
    let there = j as usize * ROW_WIDTH;
    let left = is_met(may, sides.wide, rows[at + 1], endrows[there + 1]);
    let right = is_met(may, sides.wide, rows[at + 2], endrows[there + 2]);
    left & right
}

// Some row of end state e has children that are marked with those of row i.
pub fn kids_may(sides: &Sides, may: &[u32], i: u16, e: u16) -> bool
    requires { KidRowsOn sides.now (length may.now) i e }
    ensures { KidsMayOn sides.now may.now i e → result ≡ true }
{
    any_row(&sides.end, e, |j| kids_marked(sides, may, i, j))
}

// A pair of the last level could match: some leaf of end state e equals that of image state s under choice c.
fn leaf_could(sides: &Sides, c: u8, s: u16, e: u16) -> bool
    requires { ((size : ℕ) × PairReadyOn true sides.now size s e) × (c < choices_most) }
    ensures { LeafHintOn sides.now c s e → result ≡ true }
{
    let Some(i) = transition(&sides.image, s, c) else {
        return false;
    };
    end_fits(sides, i, e)
}

// A pair of another level could match: the children of image state s under choice c are marked with those of some row of end state e.
fn kids_could(sides: &Sides, may: &[u32], c: u8, s: u16, e: u16) -> bool
    requires { PairReadyOn false sides.now (length may.now) s e × (c < choices_most) }
    ensures { KidsHintOn sides.now c may.now s e → result ≡ true }
{
    let Some(i) = transition(&sides.image, s, c) else {
        return false;
    };
    kids_may(sides, may, i, e)
}

// All pairs of the last level that could match are marked.
pub fn hint_leaves(sides: &Sides, may: &mut [u32], c: u8, level: Level)
    requires { GroundOn true sides.now (length may.old) level × (c < choices_most) }
    ensures { HintedOn true sides.now c may.old level may.new }
{
    meet_where(
        may,
        sides.wide,
        level,
        |may, s, e|
            requires { PairReadyOn true sides.now (length may.now) s e × (c < choices_most) }
            ensures { LeafHintOn sides.entry.now c s e → result ≡ true }
        { leaf_could(sides, c, s, e) },
    );
}

// All pairs of another level that could match, by the marks of the level below, are marked.
pub fn hint_kids(sides: &Sides, may: &mut [u32], c: u8, level: Level)
    requires { GroundOn false sides.now (length may.old) level × (c < choices_most) }
    ensures { HintedOn false sides.now c may.old level may.new }
{
    meet_where(
        may,
        sides.wide,
        level,
        |may, s, e|
            requires { PairReadyOn false sides.now (length may.now) s e × (c < choices_most) }
            ensures { KidsHintOn sides.entry.now c may.now s e → result ≡ true }
        { kids_could(sides, may, c, s, e) },
    );
}

// All pairs that are met on the level are marked.
pub fn all_may(may: &[u32], met: &[u32], wide: u16, level: Level) -> bool
    requires { LevelThere wide (length may.now) (length met.now) level }
    ensures { result ≡ all_met (is_met wide may.now) wide met.now level }
{
    all_met(met, wide, level, |s, e| is_met(may, wide, s, e))
}
