// What a state of an unpacked set has under a choice: the row of its transition, and all of its choices. A lookup reads the masks of that one
// state's rows and no others. For what the slices hold see crates/tables/specs/Table.antt.
#![tactic(auto)]

ghost use Rattle.std.specs.Prelude.{◌≡◌, ◌+◌, ◌-◌, ◌≤◌, ◌<◌, length, get_or};
ghost use Rattle.automata.specs.Choice.{choices_most, has};
ghost use Rattle.lookup.specs.Lookup.{row_with, transition_row, union_of, choices_of, HasState};
ghost use Rattle.lookup.specs.Answer.{found};

use tables::Table;

// The mask has the choice.
pub fn has_choice(mask: u32, choice: u8) -> bool
    requires { choice < choices_most }
    ensures { result ≡ has mask choice }
{
    (mask >> (choice as u32)) % 2 == 1
}

// The first row from row `from` up to below row `to` whose mask has the choice, if there is one.
pub fn find_row(masks: &[u32], from: u16, to: u16, choice: u8) -> Option<u16>
    requires { (to ≤ length masks.now) × (choice < choices_most) }
    ensures { result ≡ found (row_with masks.now choice from (to - from)) }
{
    for i in from..to {
        if has_choice(masks[usize::from(i)], choice) {
            return Some(i);
        }
    }
    None
}

// The row of the state's transition with the choice, if it has one.
pub fn transition(table: &Table, state: u16, choice: u8) -> Option<u16>
    requires { HasState table.now.masks.now table.now.first.now state × (choice < choices_most) }
    ensures { result ≡ found (transition_row table.now.masks.now table.now.first.now state choice) }
{
    let from = table.first[usize::from(state)];
    let to = table.first[usize::from(state) + 1];
    find_row(table.masks, from, to, choice)
}

// All choices of the rows from row `from` up to below row `to`, as one mask.
pub fn union_of(masks: &[u32], from: u16, to: u16) -> u32
    requires { to ≤ length masks.now }
    ensures { result ≡ union_of masks.now from (to - from) }
{
    let mut all: u32 = 0;
    for row in from..to {
        all |= masks[usize::from(row)];
    }
    all
}

// The choices with which the state has a transition, as one mask.
pub fn choices_of(table: &Table, state: u16) -> u32
    requires { HasState table.now.masks.now table.now.first.now state }
    ensures { result ≡ choices_of table.now.masks.now table.now.first.now state }
{
    let from = table.first[usize::from(state)];
    let to = table.first[usize::from(state) + 1];
    union_of(table.masks, from, to)
}
