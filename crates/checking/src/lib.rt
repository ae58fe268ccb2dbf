// The check's phases one after the other, over any bounds that fit its arrays: all files, then the gates, then the verdict. The tables of both sets
// are arrays of its own.
#![tactic(auto)]

ghost use Rattle.std.specs.Prelude.{◌≡◌};
ghost use Rattle.replies.specs.Replied.{fields_of, reply_from};
ghost use Rattle.setfile.specs.Answer.{bounds_of};
ghost use Rattle.applying.specs.Result.{bounds_from};
ghost use Rattle.deciding.specs.Decided.{checked_by};
ghost use Rattle.checking.specs.Asked.{Checking};

use buffers::{COEFS, COUNTS, FIRST, MASKS, ROWS};
use building::Room;
use deciding::decide;
use preparing::prepare;
use replies::Reply;
use setfile::Bounds;
use tables::TableMut;
use terms::Terms;

// What may be written, as bounds of a set file.
fn bounds_of(room: Room) -> Bounds
    ensures { bounds_of result ≡ bounds_from room }
{
    Bounds {
        states: room.states,
        inner: room.inner,
        leaves: room.leaves,
    }
}

// The reply to any three files.
pub fn check_files(
    start: &[u8],
    circuit: &[u8],
    end: &[u8],
    met: &mut [u32],
    stack: &mut [u32],
    kept: &mut [u32],
    hints: &mut [u8],
    terms: Terms,
    room: Room,
    endroom: Room,
) -> Reply
    requires { Checking met.old stack.old kept.old hints.old room endroom }
    ensures { fields_of result ≡ reply_from (checked_by (bounds_from room) (bounds_from endroom) start.now circuit.now end.now terms.most) }
{
    let mut rows = [0u16; ROWS];
    let mut masks = [0u32; MASKS];
    let mut coefs = [0i32; COEFS];
    let mut counts = [0u16; COUNTS];
    let mut first = [0u16; FIRST];
    let mut table = TableMut {
        rows: &mut rows,
        masks: &mut masks,
        coefs: &mut coefs,
        counts: &mut counts,
        first: &mut first,
    };
    let mut endrows = [0u16; ROWS];
    let mut endmasks = [0u32; MASKS];
    let mut endcoefs = [0i32; COEFS];
    let mut endcounts = [0u16; COUNTS];
    let mut endfirst = [0u16; FIRST];
    let mut endtable = TableMut {
        rows: &mut endrows,
        masks: &mut endmasks,
        coefs: &mut endcoefs,
        counts: &mut endcounts,
        first: &mut endfirst,
    };
    match prepare(
        start,
        circuit,
        end,
        bounds_of(room),
        bounds_of(endroom),
        &mut table,
        &mut endtable,
    ) {
        Err(r) => Reply::Refused(r),
        Ok(files) => {
            let ends = endtable.view();
            decide(
                circuit, files, &mut table, &ends, met, stack, kept, hints, terms, room,
            )
        }
    }
}
