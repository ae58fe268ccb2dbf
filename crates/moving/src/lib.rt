// Document 01, "What each gate builds": the records of one state of a gate's result, from the rows of the old state or of both old states of a
// pair. The old table is only read; the records go into the rest of the new one. None: the bounds would be passed.
#![tactic(auto)]

ghost use Rattle.std.specs.Prelude.{◌+◌, ◌-◌, ◌*◌, ◌<◌, ◌≤◌, length, get_or};
ghost use Rattle.automata.specs.Choice.{alt, map_alt, together};
ghost use Rattle.gates.specs.Roles.{pair_kids};
ghost use Rattle.tables.specs.Table.{row_width};
ghost use Rattle.lookup.specs.Lookup.{pair_row};
ghost use Rattle.roles.specs.Kept.{role_is, side_is, single_kids};
ghost use Rattle.growing.specs.Growing.{level_in, Growing, Kept, Grew};
ghost use Rattle.lookup.specs.Alts.{alts_from};
ghost use Rattle.moving.specs.Moves.{grow_alt, grow_alts, State};

use growing::NewLevel;
use lookup::union_of;
use pairing::{Meeting, pick_both, two_kids};
use roles::{Role, Side, Single, single_kids};
use tables::{ROW_WIDTH, Table};

// One record more, from row i of a state that is no pair.
fn grow_row(
    old: &Table,
    i: u16,
    role: Role,
    how: Single,
    level: &mut NewLevel,
    state: u16,
) -> Option<()>
    requires growing { Growing level.old }
    requires row_width_in_bounds { ((i + 1) * row_width ≤ length old.now.rows.now) × (i < length old.now.masks.now) }
    ensures grew { Grew level.new result level.old.most (grow_alt level.old.most state (alt (get_or old.now.masks.now i 0) (single_kids (role_is role) how (pair_row old.now.rows.now i)))
        (level_in level.old)) }
    ensures kept { Kept level.old level.new }
{
    let at = i as usize * ROW_WIDTH;
    let kids = single_kids(role, how, old.rows[at + 1], old.rows[at + 2]);
    level.grow(state, old.masks[i as usize], kids.left, kids.right)
}

// The records of a state that is no pair: one for each of its rows, which are those from `from` up to below `to`.
pub fn grow_single(
    old: &Table,
    from: u16,
    to: u16,
    role: Role,
    how: Single,
    level: &mut NewLevel,
    state: u16,
) -> Option<()>
    requires growing { Growing level.old }
    requires row_width_in_bounds { (to * row_width ≤ length old.now.rows.now) × (to ≤ length old.now.masks.now) }
    ensures grew { Grew level.new result level.old.most (grow_alts level.old.most state (map_alt (single_kids (role_is role) how) (alts_from old.now.rows.now old.now.masks.now from (to - from)))
        (level_in level.old)) }
    ensures kept { Kept level.old level.new }
{
    for i in from..to {
        grow_row(old, i, role, how, level, state)?;
    }
    Some(())
}

// One record more, from the two rows of a pair's states that meet, with the choices that both rows have.
fn grow_two(
    old: &Table,
    m: Meeting,
    role: Role,
    side: Side,
    level: &mut NewLevel,
    state: u16,
) -> Option<()>
    requires growing { Growing level.old }
    requires row_width_in_bounds { ((m.i + 1) * row_width ≤ length old.now.rows.now) × ((m.j + 1) * row_width ≤ length old.now.rows.now) }
    ensures grew { Grew level.new result level.old.most
        (grow_alt level.old.most state (alt m.mask (pair_kids (role_is role) (side_is side) (pair_row old.now.rows.now m.i) (pair_row old.now.rows.now m.j))) (level_in level.old)) }
    ensures kept { Kept level.old level.new }
{
    let kids = two_kids(old.rows, m.i, m.j, role, side);
    level.grow(state, m.mask, kids.left, kids.right)
}

// The records of a pair, in order of least choice: one for each two rows of its states that share a choice. The states' rows are those from
// `qfrom` up to below `qto`, and from `pfrom` up to below `pto`. There are 32 choices, so there are at most 32 steps.
pub fn grow_pair(
    old: &Table,
    qfrom: u16,
    qto: u16,
    pfrom: u16,
    pto: u16,
    role: Role,
    side: Side,
    level: &mut NewLevel,
    state: u16,
) -> Option<()>
    requires growing { Growing level.old }
    requires state { State old.now.rows.now old.now.masks.now qfrom qto × State old.now.rows.now old.now.masks.now pfrom pto }
    ensures grew { Grew level.new result level.old.most
        (grow_alts level.old.most state (together (pair_kids (role_is role) (side_is side)) (alts_from old.now.rows.now old.now.masks.now qfrom (qto - qfrom))
        (alts_from old.now.rows.now old.now.masks.now pfrom (pto - pfrom)))
        (level_in level.old)) }
    ensures kept { Kept level.old level.new }
{
    let mut left = union_of(old.masks, qfrom, qto) & union_of(old.masks, pfrom, pto);
    for _step in 0..32u8 {
        if left == 0 {
            break;
        }
        let m = pick_both(old.masks, qfrom, qto, pfrom, pto, left);
        grow_two(old, m, role, side, level, state)?;
        left ^= m.mask;
    }
    Some(())
}
