// Document 01, "What each gate builds": the records of all states of one level of a gate's result, state by state in number order, from the stored
// keys that say what each state is of the old table. The old table is only read; the records go into the rest of the new one. None: the bounds
// would be passed.
#![tactic(auto)]

ghost use Rattle.std.specs.Prelude.{◌≡◌, eqb, take};
ghost use Rattle.tables.specs.Slices.{table_is};
ghost use Rattle.automata.specs.Choice.{map_alt, together};
ghost use Rattle.gates.specs.Roles.{pair_kids};
ghost use Rattle.stepwise.specs.Grow.{grow_state, grow_all};
ghost use Rattle.roles.specs.Kept.{role_is, side_is, single_kids};
ghost use Rattle.growing.specs.Growing.{level_in, Growing, Kept, Grew};
ghost use Rattle.lookup.specs.Alts.{moves_in};
ghost use Rattle.moving.specs.Moves.{moves_of, grow_alts};
ghost use Rattle.leveling.specs.Keyed.{RowsOf, KeyRows, Keyed};

use growing::NewLevel;
use moving::{grow_pair, grow_single};
use roles::{Key, Role, Side, Single};
use tables::Table;

// The records of a state that is no pair, of the old state q.
fn grow_one(
    old: &Table,
    q: u16,
    role: Role,
    how: Single,
    level: &mut NewLevel,
    state: u16,
) -> Option<()>
    requires growing { Growing level.old }
    requires source { RowsOf (table_is old.now) q }
    ensures grew { Grew level.new result level.old.most (grow_alts level.old.most state (map_alt (single_kids (role_is role) how)
        (moves_in old.now.rows.now old.now.masks.now old.now.first.now q)) (level_in level.old)) }
    ensures kept { Kept level.old level.new }
{
    let from = old.first[q as usize];
    let to = old.first[q as usize + 1];
    grow_single(old, from, to, role, how, level, state)
}

// The records of a pair of the old states q and p.
fn grow_both(
    old: &Table,
    q: u16,
    p: u16,
    role: Role,
    side: Side,
    level: &mut NewLevel,
    state: u16,
) -> Option<()>
    requires growing { Growing level.old }
    requires source { RowsOf (table_is old.now) q × RowsOf (table_is old.now) p }
    ensures grew { Grew level.new result level.old.most (grow_alts level.old.most state (together (pair_kids (role_is role) (side_is side))
        (moves_in old.now.rows.now old.now.masks.now old.now.first.now q) (moves_in old.now.rows.now old.now.masks.now old.now.first.now p)) (level_in level.old)) }
    ensures kept { Kept level.old level.new }
{
    let qfrom = old.first[q as usize];
    let qto = old.first[q as usize + 1];
    let pfrom = old.first[p as usize];
    let pto = old.first[p as usize + 1];
    grow_pair(old, qfrom, qto, pfrom, pto, role, side, level, state)
}

// The records of the state that a stored key names.
pub fn grow_state(old: &Table, key: u64, role: Role, level: &mut NewLevel, state: u16) -> Option<()>
    requires growing { Growing level.old }
    requires source { KeyRows (table_is old.now) key }
    ensures grew { Grew level.new result level.old.most
        (grow_state eqb level.old.most.base state (moves_of (role_is role) old.now.rows.now old.now.masks.now old.now.first.now key) (level_in level.old)) }
    ensures kept { Kept level.old level.new }
{
    match Key::unstored(key) {
        Key::One(how, q) => grow_one(old, q, role, how, level, state),
        Key::Pair(side, q, p) => grow_both(old, q, p, role, side, level, state),
    }
}

// The records of a level: of the states that the first `count` keys name, in their order, numbered from `start` on.
pub fn grow_level(
    old: &Table,
    cur: &[u64],
    count: u16,
    role: Role,
    level: &mut NewLevel,
    start: u16,
) -> Option<()>
    requires growing { Growing level.old }
    requires source { Keyed (table_is old.now) cur.now count start }
    ensures grew { Grew level.new result level.old.most
        (grow_all eqb level.old.most.base (moves_of (role_is role) old.now.rows.now old.now.masks.now old.now.first.now) start (take count cur.now) (level_in level.old)) }
    ensures kept { Kept level.old level.new }
    ensures same_rows { level.new.rows.ghost_name ≡ level.old.rows.ghost_name }
    ensures same_masks { level.new.masks.ghost_name ≡ level.old.masks.ghost_name }
    ensures same_keys { level.new.keys.ghost_name ≡ level.old.keys.ghost_name }
    ensures same_link { level.new.link.ghost_name ≡ level.old.link.ghost_name }
    ensures same_heads { level.new.heads.ghost_name ≡ level.old.heads.ghost_name }
{
    for k in 0..count {
        grow_state(old, cur[k as usize], role, level, start + k)?;
    }
    Some(())
}
