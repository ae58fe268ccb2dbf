// Which pairs could match by any words at all, level by level from the leaves up, each pair with choices of its own on both sides. A walk over
// members leaves out a pair that could not: no word brings it to equal trees. Marks that say too much would only cost time.
#![tactic(auto)]

ghost use Rattle.std.specs.Prelude.{◌≡◌, true, false, List, ℕ, ◌+◌, length};
ghost use Rattle.hinting.specs.Hint.{EndRowsOn, EndFitsOn, KidRowsOn, KidsMayOn, PairReadyOn, GroundOn, HintedOn};
ghost use Rattle.foreseeing.specs.Foresee.{PairFitsOn, BothOn, ForeseeingOn, ForeseenOn};

use hinting::{any_row, end_fits, kids_may};
use matching::next_level;
use meeting::{Level, Sides, meet_none, meet_where};

// A pair of the last level could match: some row of image state s and some row of end state e have equal leaves.
fn leaf_could(sides: &Sides, s: u16, e: u16) -> bool
    requires { (size : ℕ) × PairReadyOn true sides.now size s e }
    ensures { (may : List ℕ) → PairFitsOn true sides.now may s e → result ≡ true }
{
    any_row(
        &sides.image,
        s,
        |i|
            requires { EndRowsOn sides.now i e }
            ensures { EndFitsOn sides.entry.now i e → result ≡ true }
        { end_fits(sides, i, e) },
    )
}

// A pair of another level could match: the children of some row of image state s are marked with those of some row of end state e.
fn kids_could(sides: &Sides, may: &[u32], s: u16, e: u16) -> bool
    requires { PairReadyOn false sides.now (length may.now) s e }
    ensures { PairFitsOn false sides.now may.now s e → result ≡ true }
{
    any_row(
        &sides.image,
        s,
        |i|
            requires { KidRowsOn sides.now (length may.now) i e }
            ensures { KidsMayOn sides.entry.now may.entry.now i e → result ≡ true }
        { kids_may(sides, may, i, e) },
    )
}

// All pairs of the last level that could match are marked.
fn foresee_leaves(sides: &Sides, may: &mut [u32], level: Level)
    requires { GroundOn true sides.now (length may.old) level }
    ensures { (c : ℕ) → HintedOn true sides.now c may.old level may.new }
{
    meet_where(
        may,
        sides.wide,
        level,
        |may, s, e|
            requires { PairReadyOn true sides.now (length may.now) s e }
            ensures { PairFitsOn true sides.entry.now may.now s e → result ≡ true }
        { leaf_could(sides, s, e) },
    );
}

// All pairs of another level that could match, by the marks of the level below, are marked.
fn foresee_kids(sides: &Sides, may: &mut [u32], level: Level)
    requires { GroundOn false sides.now (length may.old) level }
    ensures { (c : ℕ) → HintedOn false sides.now c may.old level may.new }
{
    meet_where(
        may,
        sides.wide,
        level,
        |may, s, e|
            requires { PairReadyOn false sides.now (length may.now) s e }
            ensures { PairFitsOn false sides.entry.now may.now s e → result ≡ true }
        { kids_could(sides, may, s, e) },
    );
}

// The pairs of this level and of all below it that could match are marked.
fn foresee_from(left: u8, at: u8, sides: &Sides, may: &mut [u32], level: Level)
    requires { ForeseeingOn sides.now (length may.old) at left level }
    ensures { ForeseenOn sides.now may.new at (at + left) }
{
    meet_none(may, sides.wide, level.from, level.to);
    if left == 0 {
        foresee_leaves(sides, may, level);
        return;
    }
    let next = next_level(sides, at, level);
    foresee_from(left - 1, at + 1, sides, may, next);
    foresee_kids(sides, may, level);
}

// The pairs of all levels that could match are marked.
pub fn foresee(n: u8, sides: &Sides, may: &mut [u32])
    requires { BothOn sides.now (length may.old) n }
    ensures { ForeseenOn sides.now may.new 0 n }
{
    let level = Level {
        from: 0,
        to: sides.image.counts[0],
        start: 0,
        stop: sides.end.counts[0],
    };
    foresee_from(n, 0, sides, may, level);
}
