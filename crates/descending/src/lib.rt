// Document 01, "What each gate builds": all levels of a gate's result from one level on, "Each level's records go into the rest of the lent
// table". Two functions in a cycle: one builds a level, the other lends the rest of the slices on for the levels below it. The written slices
// are parameters of their own, since tails of three of them are lent on, which a struct behind a reference cannot do at once.
#![tactic(auto)]

ghost use Rattle.std.specs.Prelude.{eqb, take};
ghost use Rattle.gates.specs.Numbering.{number};
ghost use Rattle.stepwise.specs.Code.{coded};
ghost use Rattle.circuits.specs.Answer.{gate_is};
ghost use Rattle.tables.specs.Slices.{table_is};
ghost use Rattle.lookup.specs.Alts.{table_automaton};
ghost use Rattle.building.specs.Whole.{Whole, Below};
ghost use Rattle.building.specs.Going.{Lists, Going, Rest, Past};

use building::{Given, Here, Outcome, Room, last_level, one_level, topped};
use growing::Most;
use tables::ROW_WIDTH;

// The levels from this one on: its states have the keys at the front of `cur`. None: there is no room for all of them.
#[cycle(build_levels_rest_levels)]
pub fn build_levels(
    given: &Given,
    here: Here,
    cur: &mut [u64],
    next: &mut [u64],
    link: &mut [u16],
    heads: &mut [u16],
    rows: &mut [u16],
    masks: &mut [u32],
    coefs: &mut [i32],
    counts: &mut [u16],
) -> Option<Outcome>
    requires going { Going (table_is given.now.table) given.now.k (gate_is given.now.gate) here.level here.left cur.old here.count }
    requires lists { Lists cur.old next.old link.old heads.old here.room.states here.start }
    requires rest { Rest rows.old masks.old coefs.old counts.old here.left here.count here.room }
    ensures { Whole rows.new masks.new coefs.new counts.new here.room result
        (number eqb (coded (gate_is given.now.gate)
        (table_automaton given.now.table.rows.now given.now.table.masks.now given.now.table.coefs.now given.now.table.first.now))
        here.level here.left here.start (take here.count cur.old)) }
{
    counts[0] = here.count;
    if here.left == 0 {
        return last_level(given, here, cur, rows, masks, coefs);
    }
    let base = here.start + here.count;
    let spare = here.room.states - here.count;
    let most = Most {
        rows: here.room.inner,
        keys: spare,
        base,
    };
    let done = one_level(given, here, cur, rows, masks, next, link, heads, most)?;
    let rest = Room {
        inner: here.room.inner - done.rows,
        leaves: here.room.leaves,
        states: spare,
    };
    let under = Here {
        level: here.level + 1,
        left: here.left - 1,
        count: done.keys,
        start: base,
        above: done.rows,
        room: rest,
    };
    let below = rest_levels(
        given, under, next, cur, link, heads, rows, masks, coefs, counts,
    );
    topped(done.rows, here.count, below)
}

// The same into the rest of the slices, past the rows of the level above and one count.
#[cycle(build_levels_rest_levels)]
pub fn rest_levels(
    given: &Given,
    here: Here,
    cur: &mut [u64],
    next: &mut [u64],
    link: &mut [u16],
    heads: &mut [u16],
    rows: &mut [u16],
    masks: &mut [u32],
    coefs: &mut [i32],
    counts: &mut [u16],
) -> Option<Outcome>
    requires going { Going (table_is given.now.table) given.now.k (gate_is given.now.gate) here.level here.left cur.old here.count }
    requires lists { Lists cur.old next.old link.old heads.old here.room.states here.start }
    requires past { Past rows.old masks.old coefs.old counts.old here.left here.count here.above here.room }
    ensures { Below rows.old masks.old counts.old rows.new masks.new coefs.new counts.new here.above here.room result
        (number eqb (coded (gate_is given.now.gate)
        (table_automaton given.now.table.rows.now given.now.table.masks.now given.now.table.coefs.now given.now.table.first.now))
        here.level here.left here.start (take here.count cur.old)) }
{
    let at = here.above as usize;
    build_levels(
        given,
        here,
        cur,
        next,
        link,
        heads,
        &mut rows[at * ROW_WIDTH..],
        &mut masks[at..],
        coefs,
        &mut counts[1..],
    )
}
