// All files of a check, before any gate: document 01, "start set 1 to 10, circuit 11 and 12, end set 1 to 10, 13". Good sets are unpacked, the start
// set into one table and the end set into another.
#![tactic(auto)]

ghost use Rattle.std.specs.Prelude.{◌≡◌};
ghost use Rattle.stored.specs.Refusal.{good};
ghost use Rattle.stored.specs.Rules.{n_most};
ghost use Rattle.jobs.specs.Check.{Ready};
ghost use Rattle.tables.specs.Slices.{lent_is, RoomyOn, SameLengths, SameLent};
ghost use Rattle.refusals.specs.Refused.{judged, seen};
ghost use Rattle.setfile.specs.Answer.{bounds_of};
ghost use Rattle.standing.specs.Tables.{HoldingOn};
ghost use Rattle.preparing.specs.Prepared.{files_judged, files_of};

use circuitfile::read_circuit;
use loading::load;
use refusals::{Reason, Refusal, Source};
use setfile::{Bounds, Form};
use tables::TableMut;

// What both sets say of themselves, and how many gates the circuit has.
#[derive(Clone, Copy)]
pub struct Files {
    pub form: Form,
    pub count: u16,
    pub endform: Form,
}

// All three files: their numbers, or the first refusal. The start set goes into the first table, the end set into the other.
pub fn prepare(
    start: &[u8],
    circuit: &[u8],
    end: &[u8],
    bounds: Bounds,
    endbounds: Bounds,
    table: &mut TableMut,
    endtable: &mut TableMut,
) -> Result<Files, Refusal>
    requires roomy { RoomyOn (lent_is table.old) n_most bounds.states bounds.inner bounds.leaves }
    requires roomy_2 { RoomyOn (lent_is endtable.old) n_most endbounds.states endbounds.inner endbounds.leaves }
    ensures value { judged result ≡ seen files_of (files_judged (bounds_of bounds) (bounds_of endbounds) start.now circuit.now end.now) }
    ensures holding { (J : Ready) → files_judged (bounds_of bounds) (bounds_of endbounds) start.now circuit.now end.now ≡ good J
        → HoldingOn (lent_is table.new) J.start (bounds_of bounds) × HoldingOn (lent_is endtable.new) J.end (bounds_of endbounds) }
    ensures long { SameLengths (lent_is table.old) (lent_is table.new) × SameLengths (lent_is endtable.old) (lent_is endtable.new) }
    ensures same_slices { SameLent table.old table.new × SameLent endtable.old endtable.new }
{
    let form = load(start, bounds, table).map_err(|f| f.of(Source::Start))?;
    let count = read_circuit(circuit, form.n)?;
    let endform = load(end, endbounds, endtable).map_err(|f| f.of(Source::End))?;
    if endform.n != form.n {
        return Err(Refusal::alone(Reason::OtherQubits));
    }
    Ok(Files {
        form,
        count,
        endform,
    })
}
