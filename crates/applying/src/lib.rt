// Document 01, "What each gate builds" and replies 14 to 16: one gate from the table of the old set to a table of its own. The old table is only read;
// what the new one held before does not matter, and after a refusal what it holds does not matter either.
#![tactic(auto)]

ghost use Rattle.std.specs.Prelude.{◌≡◌, map, ◌≤◌, length, take};
ghost use Rattle.automata.specs.Sets.{QSet};
ghost use Rattle.automata.specs.Members.{up_to};
ghost use Rattle.stored.specs.Refusal.{good};
ghost use Rattle.gates.specs.Key.{plain, stored};
ghost use Rattle.gates.specs.Refuse.{judge_gate};
ghost use Rattle.gates.proofs.Fits.{Fits};
ghost use Rattle.tables.specs.Slices.{table_is, lent_is, SameLengths, SameLent};
ghost use Rattle.circuits.specs.Answer.{gate_is};
ghost use Rattle.refusals.specs.Refused.{judged, seen};
ghost use Rattle.stepwise.proofs.StoredLaws.{Light};
ghost use Rattle.growing.specs.Growing.{SameNames};
ghost use Rattle.building.specs.Going.{ListsIn};
ghost use Rattle.standing.specs.Standing.{form_of};
ghost use Rattle.standing.specs.Tables.{set_on, StandsOn, HoldingOn};
ghost use Rattle.settling.specs.Result.{bounds_from};
ghost use Rattle.settling.specs.Standing.{LentOn};

use building::{Given, Here, Room};
use circuits::Gate;
use descending::build_levels;
use names::Names;
use refusals::Refusal;
use roles::{Key, Single};
use setfile::Form;
use settling::{growth_of, settle};
use tables::{Table, TableMut};

// The first `count` keys are those of the roots, in their order.
fn put_roots(cur: &mut [u64], count: u16)
    requires { count ≤ length cur.old }
    ensures { take count cur.new ≡ map stored (map plain (up_to 0 count)) }
{
    for i in 0..count {
        cur[i as usize] = Key::One(Single::Plain, i).stored();
    }
}

// One gate on the set that stands in the old table, which `form` says the numbers of: its result in the new one, or the refusal with this place.
// `room` is the bounds of a set.
pub fn apply_gate(
    old: &Table,
    form: Form,
    g: Gate,
    place: u32,
    cur: &mut [u64],
    names: &mut Names,
    new: &mut TableMut,
    room: Room,
) -> Result<Form, Refusal>
    requires stands { StandsOn (table_is old.now) form (bounds_from room) }
    requires light { Light (gate_is g) × Fits form.n (gate_is g) }
    requires lists { ListsIn cur.old names.old room.states 0 }
    requires lent { LentOn (lent_is new.old) form.n room }
    ensures value { judged result ≡ seen form_of (judge_gate (bounds_from room) place (gate_is g) (set_on form (table_is old.now))) }
    ensures holding { (N : QSet) → judge_gate (bounds_from room) place (gate_is g) (set_on form (table_is old.now)) ≡ good N
        → HoldingOn (lent_is new.new) N (bounds_from room) }
    ensures long { SameLengths (lent_is new.old) (lent_is new.new) × SameNames names.old names.new }
    ensures same_slices { SameLent new.old new.new }
{
    let count = old.counts[0];
    put_roots(cur, count);
    let grown = growth_of(g);
    let given = Given {
        table: *old,
        k: form.k,
        gate: g,
    };
    let here = Here {
        level: 1,
        left: form.n,
        count,
        start: 0,
        above: 0,
        room,
    };
    let built = build_levels(
        &given,
        here,
        cur,
        names.keys,
        names.link,
        names.heads,
        new.rows,
        new.masks,
        new.coefs,
        new.counts,
    );
    let rows = &mut *new.rows;
    let first = &mut *new.first;
    settle(form, grown, place, built, rows, first)
}
