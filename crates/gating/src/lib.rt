// Document 01, the job *One gate*, in slices that are long enough and over any bounds: the set is read and unpacked, its gate applied from one table
// to another, and the new set written to the output.
#![tactic(auto)]

ghost use Rattle.std.specs.Prelude.{◌≡◌, ◌≤◌, length};
ghost use Rattle.automata.specs.Sets.{QSet};
ghost use Rattle.stored.specs.Refusal.{good};
ghost use Rattle.stored.specs.Rules.{n_most};
ghost use Rattle.stored.specs.Pack.{file_of};
ghost use Rattle.stored.proofs.WellFormed.{Narrow};
ghost use Rattle.gates.specs.Circuit.{judge_one};
ghost use Rattle.jobs.specs.Reply.{made as Reply·made};
ghost use Rattle.jobs.specs.OneGate.{with_file};
ghost use Rattle.refusals.specs.Refused.{judged, seen};
ghost use Rattle.replies.specs.Replied.{fields_of, reply_from};
ghost use Rattle.tables.specs.Slices.{table_is, lent_is, set_on, RoomyOn, SameLengths, SameLent};
ghost use Rattle.packing.specs.Written.{at_front};
ghost use Rattle.growing.specs.Growing.{SameNames};
ghost use Rattle.building.specs.Going.{ListsIn};
ghost use Rattle.standing.specs.Standing.{form_of};
ghost use Rattle.standing.specs.Tables.{StandsOn, HoldingOn};
ghost use Rattle.settling.specs.Standing.{LentOn};
ghost use Rattle.settling.specs.Result.{bounds_from};
ghost use Rattle.gating.specs.Gated.{one_judged, new_set_by, length_reply, largest, TargetOn};

use applying::apply_gate;
use building::Room;
use circuitfile::read_one;
use circuits::{Gate, gate_at};
use loading::load;
use names::Names;
use packing::pack;
use refusals::{Reason, Refusal, Source};
use replies::Reply;
use setfile::{Bounds, Form};
use tables::{Table, TableMut};

// The gate of a circuit that must have one, its qubits held to n.
pub fn one_of(circuit: &[u8], n: u8) -> Result<Gate, Refusal>
    ensures { judged result ≡ one_judged (judge_one n circuit.now) }
{
    read_one(circuit, n)?;
    gate_at(n, circuit, 0).ok_or(Refusal {
        reason: Reason::Gate,
        source: Source::Circuit,
        place: 1,
    })
}

// A set that was made, as a file at the front of the output.
fn store(form: Form, table: &Table, output: &mut [u8], room: Room) -> Reply
    requires stands { StandsOn (table_is table.now) form (bounds_from room) }
    requires narrow { Narrow (bounds_from room) × (largest room ≤ length output.old) }
    ensures value { fields_of result ≡ reply_from (Reply·made (length (file_of (set_on form (table_is table.now))))) }
    ensures output_after { output.new ≡ at_front (file_of (set_on form (table_is table.now))) output.old }
{
    Reply::Made(pack(form, table, output) as u32)
}

// The set file and the circuit, the table for the set, and what the gate builds in: the new set's numbers. It stands in the new table then.
fn new_set(
    set: &[u8],
    circuit: &[u8],
    old: &mut TableMut,
    cur: &mut [u64],
    names: &mut Names,
    new: &mut TableMut,
    room: Room,
) -> Result<Form, Refusal>
    requires roomy { RoomyOn (lent_is old.old) n_most room.states room.inner room.leaves }
    requires lists { ListsIn cur.old names.old room.states 0 }
    requires lent { LentOn (lent_is new.old) n_most room }
    ensures value { judged result ≡ seen form_of (new_set_by (bounds_from room) set.now circuit.now) }
    ensures holding { (N : QSet) → new_set_by (bounds_from room) set.now circuit.now ≡ good N → HoldingOn (lent_is new.new) N (bounds_from room) }
    ensures long { SameLengths (lent_is old.old) (lent_is old.new) × SameLengths (lent_is new.old) (lent_is new.new) × SameNames names.old names.new }
    ensures same_slices { SameLent old.old old.new × SameLent new.old new.new }
{
    let bounds = Bounds {
        states: room.states,
        inner: room.inner,
        leaves: room.leaves,
    };
    let form = load(set, bounds, old).map_err(|f| f.of(Source::Start))?;
    let g = one_of(circuit, form.n)?;
    let table = old.view();
    apply_gate(&table, form, g, 1, cur, names, new, room)
}

// The job where all slices are long enough: the set file and the circuit, the table for the set, what the gate builds in, and the output.
pub fn gate_file(
    set: &[u8],
    circuit: &[u8],
    old: &mut TableMut,
    cur: &mut [u64],
    names: &mut Names,
    new: &mut TableMut,
    output: &mut [u8],
    room: Room,
) -> Reply
    requires roomy { RoomyOn (lent_is old.old) n_most room.states room.inner room.leaves }
    requires target { TargetOn cur.old names.old (lent_is new.old) output.old room }
    ensures value { fields_of result ≡ reply_from (length_reply (new_set_by (bounds_from room) set.now circuit.now)) }
    ensures output_after { output.new ≡ with_file output.old (new_set_by (bounds_from room) set.now circuit.now) }
    ensures long { SameLengths (lent_is old.old) (lent_is old.new) × SameLengths (lent_is new.old) (lent_is new.new) × SameNames names.old names.new }
    ensures same_slices { SameLent old.old old.new × SameLent new.old new.new }
{
    match new_set(set, circuit, old, cur, names, new, room) {
        Err(r) => Reply::Refused(r),
        Ok(form) => {
            let table = new.view();
            store(form, &table, output, room)
        }
    }
}
