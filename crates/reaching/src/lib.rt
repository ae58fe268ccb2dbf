// The states that a member's word so far reaches, as bytes of one lent row: cell s is 1 if state s is reached. States of different levels are
// different numbers, so the states of all levels of a word stand in one row. One choice takes a level's reached states to the next level's.
#![tactic(auto)]

ghost use Rattle.std.specs.Prelude.{◌≡◌, ◌&&◌, ℕ, ◌≤◌, ◌<◌, length};
ghost use Rattle.automata.specs.Choice.{choices_most, has};
ghost use Rattle.lookup.specs.Lookup.{transition_row, pair_row, is_some};
ghost use Rattle.reaching.specs.Reached.{is_reached, if_reached, all_reached, Reaching, Emptied, Twice, Spread, Gone, kids_on, has_choice_on, KidsThereOn, ReadyOn, StageOn, EndedOn};

use lookup::{choices_of, transition};
use tables::{ROW_WIDTH, Table};

// State s is reached.
fn is_reached(reached: &[u8], s: u16) -> bool
    requires { s < length reached.now }
    ensures { result ≡ is_reached reached.now s }
{
    reached[s as usize] == 1
}

// State s is reached from now on. The others are as they were.
pub fn reach(reached: &mut [u8], s: u16)
    requires { s < length reached.old }
    ensures { Reaching reached.old s reached.new }
{
    reached[s as usize] = 1;
}

// None of the states from `from` up to below `to` is reached now. Those before them are as they were.
pub fn reach_none(reached: &mut [u8], from: u16, to: u16)
    requires { to ≤ length reached.old }
    ensures { Emptied reached.old from to reached.new }
{
    if from < to {
        reached[from as usize..to as usize].fill(0);
    }
}

// Both children of row i are reached.
fn reach_kids(table: &Table, reached: &mut [u8], i: u16)
    requires { KidsThereOn table.now (length reached.old) i }
    ensures { Twice reached.old (pair_row table.now.rows.now i) reached.new }
{
    let at = i as usize * ROW_WIDTH;
    reach(reached, table.rows[at + 1]);
    reach(reached, table.rows[at + 2]);
}

// The children of state s under choice c, if it has a transition with it.
fn reach_moved(table: &Table, reached: &mut [u8], c: u8, s: u16) -> bool
    requires { ((from : ℕ) × (to : ℕ) × ReadyOn table.now (length reached.old) s from to) × (c < choices_most) }
    ensures { (from to : ℕ) → ReadyOn table.now (length reached.old) s from to
        → Spread reached.old from to (λ g. kids_on table.now c g s) reached.new result }
{
    let Some(i) = transition(table, s, c) else {
        return false;
    };
    reach_kids(table, reached, i);
    true
}

// The same, if state s is reached.
fn reach_from(table: &Table, reached: &mut [u8], c: u8, s: u16) -> bool
    requires { ((from : ℕ) × (to : ℕ) × ReadyOn table.now (length reached.old) s from to) × (c < choices_most) }
    ensures { (from to : ℕ) → ReadyOn table.now (length reached.old) s from to
        → Spread reached.old from to (λ g. if_reached (kids_on table.now c g) reached.old s) reached.new result }
{
    if !is_reached(reached, s) {
        return true;
    }
    reach_moved(table, reached, c, s)
}

// The children of all reached states from `from` up to below `to`.
fn reach_states(table: &Table, reached: &mut [u8], c: u8, from: u16, to: u16) -> bool
    requires { ((till : ℕ) × StageOn table.now (length reached.old) from to till) × (c < choices_most) }
    ensures { (till : ℕ) → StageOn table.now (length reached.old) from to till
        → Spread reached.old to till (λ g. all_reached (kids_on table.now c g) reached.old from to) reached.new result }
{
    for s in from..to {
        if !reach_from(table, reached, c, s) {
            return false;
        }
    }
    true
}

// One level down by choice c: on the next level, from `to` up to below `till`, just the children of this level's reached states are reached, if
// all of them have a transition with the choice.
pub fn reach_next(table: &Table, reached: &mut [u8], c: u8, from: u16, to: u16, till: u16) -> bool
    requires { StageOn table.now (length reached.old) from to till × (c < choices_most) }
    ensures { Gone reached.old to till (λ g. all_reached (kids_on table.now c g) reached.old from to) reached.new result }
{
    reach_none(reached, to, till);
    reach_states(table, reached, c, from, to)
}

// State s, if it is reached, has a transition with choice c.
fn ends(table: &Table, reached: &[u8], c: u8, s: u16) -> bool
    requires { EndedOn table.now s × (s < length reached.now) × (c < choices_most) }
    ensures { result ≡ if_reached (λ (q : ℕ). is_some (transition_row table.now.masks.now table.now.first.now q c)) reached.now s }
{
    if !is_reached(reached, s) {
        return true;
    }
    transition(table, s, c).is_some()
}

// All reached states from `from` up to below `to` have a transition with choice c.
pub fn ends_all(table: &Table, reached: &[u8], c: u8, from: u16, to: u16) -> bool
    requires { ((s : ℕ) → from ≤ s → s < to → EndedOn table.now s) × (to ≤ length reached.now) × (c < choices_most) }
    ensures { result ≡ all_reached (λ (q : ℕ). is_some (transition_row table.now.masks.now table.now.first.now q c)) reached.now from to }
{
    for s in from..to {
        if !ends(table, reached, c, s) {
            return false;
        }
    }
    true
}

// The mask with the choices of state s only, if it is reached.
fn reached_state(table: &Table, reached: &[u8], s: u16, mask: u32) -> u32
    requires { EndedOn table.now s × (s < length reached.now) }
    ensures { (d : ℕ) → has result d ≡ has mask d && if_reached (has_choice_on table.now d) reached.now s }
{
    if !is_reached(reached, s) {
        return mask;
    }
    mask & choices_of(table, s)
}

// The choices that all reached states from `from` up to below `to` have: a word can go on with no other. All choices where none is reached.
pub fn reached_choices(table: &Table, reached: &[u8], from: u16, to: u16) -> u32
    requires { ((s : ℕ) → from ≤ s → s < to → EndedOn table.now s) × (to ≤ length reached.now) }
    ensures { (d : ℕ) → d < choices_most → has result d ≡ all_reached (has_choice_on table.now d) reached.now from to }
{
    let mut left = u32::MAX;
    for s in from..to {
        left = reached_state(table, reached, s, left);
    }
    left
}
