// Document 01, "What each gate builds": all levels of a gate's result, one after the other from the table of the old set into the rest of lent
// slices.
#![tactic(auto)]

ghost use Rattle.std.specs.Prelude.{◌≡◌, List, [], ◌∷◌, ℕ, ◌+◌, ◌<◌, ◌≤◌, eqb, length, get_or, take, Some, None};
ghost use Rattle.gates.specs.Numbering.{all_rows};
ghost use Rattle.gates.specs.Roles.{role};
ghost use Rattle.stepwise.specs.Grow.{begun, grow_all};
ghost use Rattle.circuits.specs.Answer.{gate_is};
ghost use Rattle.tables.specs.Slices.{table_is};
ghost use Rattle.names.specs.Chain.{Chained};
ghost use Rattle.moving.specs.Moves.{moves_of};
ghost use Rattle.leveling.specs.Keyed.{Keyed};
ghost use Rattle.ending.specs.Ends.{ends_of};
ghost use Rattle.ending.specs.Source.{LeafKey};
ghost use Rattle.building.specs.Fresh.{Fresh, Kept, Climbed};
ghost use Rattle.building.specs.Whole.{Wide, Whole, on_levels};

use circuits::Gate;
use ending::end_level;
use endrow::{Ending, NewLeaves};
use growing::{Most, NewLevel, Progress};
use leveling::grow_level;
use names::begin;
use roles::role_at;
use tables::Table;

// What is given: the table of the old set, its k, and the gate.
#[derive(Clone, Copy)]
pub struct Given<'a> {
    pub table: Table<'a>,
    pub k: u8,
    pub gate: Gate,
}

// How many inner transitions, leaves and states may still be written.
#[derive(Clone, Copy)]
pub struct Room {
    pub inner: u16,
    pub leaves: u16,
    pub states: u16,
}

// Where building stands: the level, how many levels of qubits are still to come, how many states the level has, the number of its first one, how
// many rows of the level above stand before the rest that is lent, and what may still be written.
#[derive(Clone, Copy)]
pub struct Here {
    pub level: u8,
    pub left: u8,
    pub count: u16,
    pub start: u16,
    pub above: u16,
    pub room: Room,
}

// How many were written, and whether every leaf's coefficients are in their range.
#[derive(Clone, Copy)]
pub struct Outcome {
    pub inner: u16,
    pub leaves: u16,
    pub states: u16,
    pub fits: bool,
}

// The records of one level; None where there is no room for all of them. No key of the next level is mentioned before.
pub fn one_level(
    given: &Given,
    here: Here,
    cur: &[u64],
    rows: &mut [u16],
    masks: &mut [u32],
    keys: &mut [u64],
    link: &mut [u16],
    heads: &mut [u16],
    most: Most,
) -> Option<Progress>
    requires source { Keyed (table_is given.now.table) cur.now here.count here.start }
    requires fresh { Fresh rows.old masks.old keys.old link.old heads.old most }
    ensures grew { Climbed rows.new masks.new keys.new result most
        (grow_all eqb most.base (moves_of (role (gate_is given.now.gate) here.level) given.now.table.rows.now given.now.table.masks.now given.now.table.first.now)
        here.start (take here.count cur.now) begun) }
    ensures chained { (p : Progress) → result ≡ Some p → Chained keys.new link.new heads.new p.keys }
    ensures kept { Kept rows.old masks.old keys.old link.old heads.old
        rows.new masks.new keys.new link.new heads.new }
{
    begin(heads);
    let mut level = NewLevel {
        rows,
        masks,
        keys,
        link,
        heads,
        done: Progress { rows: 0, keys: 0 },
        most,
    };
    let table = given.table;
    let role = role_at(given.gate, here.level);
    grow_level(&table, cur, here.count, role, &mut level, here.start)?;
    Some(level.done)
}

// The leaf level; None where there is no room for all of it. No leaf is written before.
pub fn last_level(
    given: &Given,
    here: Here,
    cur: &[u64],
    rows: &mut [u16],
    masks: &mut [u32],
    coefs: &mut [i32],
) -> Option<Outcome>
    requires count_in_bounds { (here.count ≤ length cur.now) × (here.start + here.count < 65536) × (here.count ≤ here.room.states) × Wide rows.old masks.old coefs.old here.room }
    requires by_index { (i : ℕ) → i < here.count
        → LeafKey given.now.table.rows.now given.now.table.masks.now given.now.table.coefs.now given.now.table.first.now given.now.k (get_or cur.now i 0) }
    ensures { (counts : List ℕ) → take 1 counts ≡ here.count ∷ [] → Whole rows.new masks.new coefs.new counts here.room result
        (record {
          counts = here.count ∷ [];
          inner = [];
          leaves = all_rows (ends_of given.now.table.rows.now given.now.table.masks.now given.now.table.coefs.now given.now.table.first.now) here.start (take here.count cur.now);
        }) }
{
    let mut leaves = NewLeaves {
        rows,
        masks,
        coefs,
        done: Ending {
            rows: 0,
            fits: true,
        },
        most: here.room.leaves,
    };
    let old = given.table;
    end_level(&old, cur, here.count, here.start, given.k, &mut leaves)?;
    let done = leaves.done;
    Some(Outcome {
        inner: 0,
        leaves: done.rows,
        states: here.count,
        fits: done.fits,
    })
}

// A level of so many rows and states on top of the levels below it; None where there was no room for all of those.
pub fn topped(w: u16, count: u16, below: Option<Outcome>) -> Option<Outcome>
    requires { (o : Outcome) → below ≡ Some o → (w + o.inner < 65536) × (count + o.states < 65536) }
    ensures on { (o : Outcome) → below ≡ Some o → result ≡ Some (on_levels w count o) }
    ensures over { below ≡ None → result ≡ None }
{
    let below = below?;
    Some(Outcome {
        inner: w + below.inner,
        leaves: below.leaves,
        states: count + below.states,
        fits: below.fits,
    })
}
