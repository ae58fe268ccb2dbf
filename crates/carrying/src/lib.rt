// Document 01, "gate by gate 15, 14, 16 .. (earliest first)": a circuit's gates one after the other on a set in a lent table. There are two tables; each
// gate goes from the one that holds the set to the other, and the first gate that is refused ends it.
#![tactic(auto)]

ghost use Rattle.gates.specs.Refuse.{after_gates};
ghost use Rattle.growing.specs.Growing.{SameNames};
ghost use Rattle.building.specs.Going.{ListsIn};
ghost use Rattle.tables.specs.Slices.{lent_is, SameLengths, SameLent};
ghost use Rattle.standing.specs.Tables.{set_on, StandsOn};
ghost use Rattle.settling.specs.Result.{bounds_from};
ghost use Rattle.settling.specs.Standing.{LentOn};
ghost use Rattle.carrying.specs.Carried.{Readable, gates_from, Carried};

use building::Room;
use circuits::{GT_SIZE, gate_at};
use names::Names;
use refusals::Refusal;
use setfile::Form;
use settling::Image;
use tables::TableMut;
use turning::turn;

// All of `count` gates, whose records stand at the front of a circuit: the image after them, in the table that it says, or the first refusal,
// with the place of its gate, from 1. The set is in the first table to begin with.
pub fn run_gates(
    circuit: &[u8],
    count: u16,
    form: Form,
    a: &mut TableMut,
    b: &mut TableMut,
    cur: &mut [u64],
    names: &mut Names,
    room: Room,
) -> Result<Image, Refusal>
    requires readable { Readable form.n circuit.now 0 count }
    requires stands_on { StandsOn (lent_is a.old) form (bounds_from room) }
    requires lists { ListsIn cur.old names.old room.states 0 }
    requires lent_on { LentOn (lent_is a.old) form.n room × LentOn (lent_is b.old) form.n room }
    ensures carried { Carried form.n (lent_is a.new) (lent_is b.new) result (bounds_from room)
        (after_gates (bounds_from room) 1 (gates_from form.n circuit.now 0 count) (set_on form (lent_is a.old))) }
    ensures long { SameLengths (lent_is a.old) (lent_is a.new) × SameLengths (lent_is b.old) (lent_is b.new) × SameNames names.old names.new }
    ensures same_slices { SameLent a.old a.new × SameLent b.old b.new }
{
    let mut image = Image {
        form,
        second: false,
    };
    for i in 0..count {
        let g = gate_at(form.n, circuit, i as usize * GT_SIZE).unwrap();
        let place = i as u32 + 1;
        image = image.next(turn(image, g, place, a, b, cur, names, room))?;
    }
    Ok(image)
}
