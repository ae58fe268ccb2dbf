// One gate of a circuit on a set in one of two tables: it goes from the one that holds the set to the other. By the image's flag one table or the
// other is read, so both ways are the same call.
#![tactic(auto)]

ghost use Rattle.std.specs.Prelude.{◌≡◌};
ghost use Rattle.automata.specs.Sets.{QSet};
ghost use Rattle.stored.specs.Refusal.{good};
ghost use Rattle.gates.specs.Refuse.{judge_gate};
ghost use Rattle.gates.proofs.Fits.{Fits};
ghost use Rattle.circuits.specs.Answer.{gate_is};
ghost use Rattle.refusals.specs.Refused.{judged, seen};
ghost use Rattle.stepwise.proofs.StoredLaws.{Light};
ghost use Rattle.growing.specs.Growing.{SameNames};
ghost use Rattle.building.specs.Going.{ListsIn};
ghost use Rattle.standing.specs.Standing.{form_of};
ghost use Rattle.tables.specs.Slices.{lent_is, SameLengths, SameLent};
ghost use Rattle.standing.specs.Tables.{holder, other, set_on, StandsIn, HoldingOn};
ghost use Rattle.settling.specs.Result.{bounds_from};
ghost use Rattle.settling.specs.Standing.{LentOn};

use applying::apply_gate;
use building::Room;
use circuits::Gate;
use names::Names;
use refusals::Refusal;
use setfile::Form;
use settling::Image;
use tables::TableMut;

// One gate from the table that holds the set to the other.
pub fn turn(
    image: Image,
    g: Gate,
    place: u32,
    a: &mut TableMut,
    b: &mut TableMut,
    cur: &mut [u64],
    names: &mut Names,
    room: Room,
) -> Result<Form, Refusal>
    requires stands_in { StandsIn image.second (lent_is a.old) (lent_is b.old) image.form (bounds_from room) }
    requires light { Light (gate_is g) × Fits image.form.n (gate_is g) }
    requires lists { ListsIn cur.old names.old room.states 0 }
    requires lent_on { LentOn (lent_is a.old) image.form.n room × LentOn (lent_is b.old) image.form.n room }
    ensures value { judged result ≡ seen form_of (judge_gate (bounds_from room) place (gate_is g) (set_on image.form (holder image.second (lent_is a.old) (lent_is b.old)))) }
    ensures holding_on { (N : QSet) → judge_gate (bounds_from room) place (gate_is g) (set_on image.form (holder image.second (lent_is a.old) (lent_is b.old))) ≡ good N
        → HoldingOn (other image.second (lent_is a.new) (lent_is b.new)) N (bounds_from room) }
    ensures long { SameLengths (lent_is a.old) (lent_is a.new) × SameLengths (lent_is b.old) (lent_is b.new) × SameNames names.old names.new }
    ensures same_slices { SameLent a.old a.new × SameLent b.old b.new }
{
    if image.second {
        return apply_gate(&b.view(), image.form, g, place, cur, names, a, room);
    }
    apply_gate(&a.view(), image.form, g, place, cur, names, b, room)
}
