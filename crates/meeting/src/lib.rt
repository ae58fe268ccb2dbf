// Which end states each image state meets, as marks in one lent row: image state s has `wide` words from word s * wide on, and end state e is
// bit e of them. States of different levels are different numbers, so the pairs of all levels stand in one row, each in its own place.
#![tactic(auto)]

ghost use Rattle.std.specs.Prelude.{◌≡◌, Bool, List, ℕ, ◌-◌, ◌*◌, ◌≤◌, ◌<◌, length};
ghost use Rattle.std.specs.Borrow.{Bor};
ghost use Rattle.meeting.specs.Met.{place, is_met, There, NextMet, Meeting, Emptied};
ghost use Rattle.meeting.specs.All.{met_by, all_met};
ghost use Rattle.meeting.specs.Where.{one_state, MetWhere};

use flags::{clear_words, flag_at, set_flag};
use masks::least_choice;
use tables::Table;

// The states of one level: the image's from `from` up to below `to`, and the end set's from `start` up to below `stop`.
#[derive(Clone, Copy)]
pub struct Level {
    pub from: u16,
    pub to: u16,
    pub start: u16,
    pub stop: u16,
}

// The tables of the image and of the end set, and the words that each image state has in a row of marks.
#[derive(Clone, Copy)]
pub struct Sides<'a> {
    pub image: Table<'a>,
    pub end: Table<'a>,
    pub wide: u16,
}

// The mark of image state s and end state e.
fn place(wide: u16, s: u16, e: u16) -> usize
    ensures { result ≡ place wide s e }
{
    (s as usize) * (wide as usize) * 32 + (e as usize)
}

// Image state s meets end state e.
pub fn is_met(met: &[u32], wide: u16, s: u16, e: u16) -> bool
    requires { There wide (length met.now) s e }
    ensures { result ≡ is_met wide met.now s e }
{
    flag_at(met, place(wide, s, e))
}

// The first end state from `from` up to below `stop` that image state s meets. The marks of a word are looked at together.
pub fn next_met(met: &[u32], wide: u16, s: u16, from: u16, stop: u16) -> Option<u16>
    requires { (e : ℕ) → from ≤ e → e < stop → There wide (length met.now) s e }
    ensures { NextMet wide met.now s from stop result }
{
    let row = (s as usize) * (wide as usize);
    let to = stop as u32;
    let mut e = from as u32;
    // A while: it passes a word without marks in one step, which a range cannot.
    while e < to {
        let rest = met[row + (e / 32) as usize] >> (e % 32);
        if rest != 0 {
            e += least_choice(rest);
            return if e < to { Some(e as u16) } else { None };
        }
        e = (e / 32 + 1) * 32;
    }
    None
}

// All end states from `start` up to below `stop` that image state s meets pass the test.
fn met_pass<F: Fn(u16, u16) -> bool>(
    met: &[u32],
    wide: u16,
    s: u16,
    start: u16,
    stop: u16,
    passes: &F,
) -> bool
    requires there { (e : ℕ) → start ≤ e → e < stop → There wide (length met.now) s e }
    requires asked { (e : ℕ) → start ≤ e → e < stop → F.pre passes.now s e }
    ensures { (g : ℕ → ℕ → Bool) → ((e : ℕ) (b : Bool) → start ≤ e → e < stop → F.post passes.now s e b → b ≡ g s e) → result ≡ met_by g wide met.now s start (stop - start) }
{
    let mut from = start;
    while let Some(e) = next_met(met, wide, s, from, stop) {
        if !passes(s, e) {
            return false;
        }
        from = e + 1;
    }
    true
}

// All pairs of the level that are met pass the test.
pub fn all_met<F: Fn(u16, u16) -> bool>(met: &[u32], wide: u16, level: Level, passes: F) -> bool
    requires there { (s e : ℕ) → level.from ≤ s → s < level.to → level.start ≤ e → e < level.stop → There wide (length met.now) s e }
    requires asked { (s e : ℕ) → level.from ≤ s → s < level.to → level.start ≤ e → e < level.stop → F.pre passes s e }
    ensures { (g : ℕ → ℕ → Bool)
        → ((s e : ℕ) (b : Bool) → level.from ≤ s → s < level.to → level.start ≤ e → e < level.stop → F.post passes s e b → b ≡ g s e)
        → result ≡ all_met g wide met.now level }
{
    for s in level.from..level.to {
        if !met_pass(met, wide, s, level.start, level.stop, &passes) {
            return false;
        }
    }
    true
}

// Image state s meets end state e from now on. The other pairs are as they were.
pub fn meet(met: &mut [u32], wide: u16, s: u16, e: u16)
    requires { There wide (length met.old) s e }
    ensures { Meeting wide met.old s e met.new }
{
    set_flag(met, place(wide, s, e));
}

// Image state s meets from now on each end state from `start` up to below `stop` that passes the test, which may read the marks.
fn meet_state<F: Fn(&[u32], u16, u16) -> bool>(
    met: &mut [u32],
    wide: u16,
    s: u16,
    start: u16,
    stop: u16,
    passes: &F,
)
    requires there { (e : ℕ) → start ≤ e → e < stop → There wide (length met.old) s e }
    requires asked { (p : Bor (List ℕ)) (e : ℕ) → length p.now ≡ length met.old → start ≤ e → e < stop → F.pre passes.now p s e }
    ensures { MetWhere (F.post passes.now) wide met.old (one_state s start stop) met.new }
{
    for e in start..stop {
        if passes(met, s, e) {
            meet(met, wide, s, e);
        }
    }
}

// Each pair of the level that passes the test is met from now on.
pub fn meet_where<F: Fn(&[u32], u16, u16) -> bool>(
    met: &mut [u32],
    wide: u16,
    level: Level,
    passes: F,
)
    requires there { (s e : ℕ) → level.from ≤ s → s < level.to → level.start ≤ e → e < level.stop → There wide (length met.old) s e }
    requires asked { (p : Bor (List ℕ)) (s e : ℕ) → length p.now ≡ length met.old → level.from ≤ s → s < level.to → level.start ≤ e → e < level.stop → F.pre passes p s e }
    ensures { MetWhere (F.post passes) wide met.old level met.new }
{
    for s in level.from..level.to {
        meet_state(met, wide, s, level.start, level.stop, &passes);
    }
}

// The image states from `from` up to below `to` meet none now. The other pairs are as they were.
pub fn meet_none(met: &mut [u32], wide: u16, from: u16, to: u16)
    requires { to * wide ≤ length met.old }
    ensures { Emptied wide met.old from to met.new }
{
    clear_words(
        met,
        (from as usize) * (wide as usize),
        (to as usize) * (wide as usize),
    );
}
