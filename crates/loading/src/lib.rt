// A set file, judged by the ten rules and, if it is good, unpacked into lent slices: what both jobs do with each set that they are given.
#![tactic(auto)]

ghost use Rattle.std.specs.Prelude.{◌≡◌, ℕ};
ghost use Rattle.automata.specs.Sets.{QSet};
ghost use Rattle.stored.specs.Refusal.{good};
ghost use Rattle.stored.specs.Rules.{n_most};
ghost use Rattle.stored.specs.Judge.{judge_set};
ghost use Rattle.tables.specs.Slices.{lent_is, SameLengths, SameLent, RoomyOn};
ghost use Rattle.refusals.specs.Refused.{judged_at, seen};
ghost use Rattle.setfile.specs.Answer.{bounds_of};
ghost use Rattle.standing.specs.Standing.{form_of};
ghost use Rattle.standing.specs.Tables.{HoldingOn};

use refusals::Fault;
use setfile::{Bounds, Form, read_set};
use tables::{TableMut, unpack};

// The set's numbers, or what is wrong with the file. A table with room for the bounds then holds a set that is taken.
pub fn load(file: &[u8], bounds: Bounds, table: &mut TableMut) -> Result<Form, Fault>
    requires { RoomyOn (lent_is table.old) n_most bounds.states bounds.inner bounds.leaves }
    ensures value { (source : ℕ) → judged_at source result ≡ seen form_of (judge_set (bounds_of bounds) source file.now) }
    ensures holding { (source : ℕ) (Q : QSet) → judge_set (bounds_of bounds) source file.now ≡ good Q
        → HoldingOn (lent_is table.new) Q (bounds_of bounds) }
    ensures long { SameLengths (lent_is table.old) (lent_is table.new) }
    ensures same_slices { SameLent table.old table.new }
{
    let form = read_set(file, bounds)?;
    unpack(file, form, table);
    Ok(form)
}
