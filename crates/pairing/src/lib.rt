// Document 01, "one transition for each two transitions whose masks meet, with the intersection as mask", in order of least choice: the two rows, one of
// each state of a pair, that meet at the least of the choices left. Rows of one state share no choice, so the first that has it is the only one.
#![tactic(auto)]

ghost use Rattle.std.specs.Prelude.{◌≡◌, ◌+◌, ◌*◌, ◌<◌, ◌≤◌, length};
ghost use Rattle.automata.specs.Choice.{choices_most, least};
ghost use Rattle.gates.specs.Roles.{pair_kids};
ghost use Rattle.tables.specs.Table.{row_width};
ghost use Rattle.lookup.specs.Lookup.{pair_row};
ghost use Rattle.roles.specs.Kept.{role_is, side_is, kids_of};
ghost use Rattle.pairing.specs.Meetings.{Picked, Met};

use lookup::find_row;
use masks::least_choice;
use roles::{Kids, Role, Side, pair_kids};
use tables::ROW_WIDTH;

// The first row from `from` up to below `to` whose mask has the choice; where none has it the definition picks row `from`, and so does this.
fn pick_row(masks: &[u32], from: u16, to: u16, choice: u8) -> u16
    requires { (from < to) × (to ≤ length masks.now) × (choice < choices_most) }
    ensures { Picked masks.now from to choice result }
{
    find_row(masks, from, to, choice).unwrap_or(from)
}

// Two rows that meet, one of each state of a pair, and the choices that both have.
#[derive(Clone, Copy)]
pub struct Meeting {
    pub i: u16,
    pub j: u16,
    pub mask: u32,
}

// The least of the choices left.
fn first_choice(left: u32) -> u8
    requires { left ≡ 0 → ⊥ }
    ensures { (result ≡ least left) × (result < choices_most) }
{
    least_choice(left) as u8
}

// The rows of both states with the least of the choices left.
pub fn pick_both(masks: &[u32], qfrom: u16, qto: u16, pfrom: u16, pto: u16, left: u32) -> Meeting
    requires { (left ≡ 0 → ⊥) × (qfrom < qto) × (pfrom < pto) × (qto ≤ length masks.now) × (pto ≤ length masks.now) }
    ensures { Met masks.now qfrom qto pfrom pto left result }
{
    let c = first_choice(left);
    let i = pick_row(masks, qfrom, qto, c);
    let j = pick_row(masks, pfrom, pto, c);
    let mask = masks[i as usize] & masks[j as usize];
    Meeting { i, j, mask }
}

// The keys of the children under rows i and j of a pair's two states, at a level with this role.
pub fn two_kids(old: &[u16], i: u16, j: u16, role: Role, side: Side) -> Kids
    requires { ((i + 1) * row_width ≤ length old.now) × ((j + 1) * row_width ≤ length old.now) }
    ensures { result ≡ kids_of (pair_kids (role_is role) (side_is side) (pair_row old.now i) (pair_row old.now j)) }
{
    let a = i as usize * ROW_WIDTH;
    let b = j as usize * ROW_WIDTH;
    pair_kids(role, side, old[a + 1], old[a + 2], old[b + 1], old[b + 2])
}
