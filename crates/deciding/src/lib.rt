// The gates of a check whose files are all good, and then its verdict: document 01, "then gate by gate 15, 14, 16", and the members of the image, in
// order, up to the allowance. The gates' second table and their keys are arrays of its own.
#![tactic(auto)]

ghost use Rattle.std.specs.Prelude.{◌≡◌};
ghost use Rattle.jobs.specs.Check.{ready};
ghost use Rattle.replies.specs.Replied.{fields_of, reply_from};
ghost use Rattle.applying.specs.Result.{bounds_from};
ghost use Rattle.tables.specs.Slices.{table_is, lent_is, set_on, SameLengths, SameLent};
ghost use Rattle.carrying.specs.Carried.{gates_from};
ghost use Rattle.deciding.specs.Decided.{decided, Deciding};

use buffers::{COEFS, COUNTS, FIRST, HEADS, KEYS, MASKS, ROWS};
use building::Room;
use carrying::run_gates;
use names::Names;
use preparing::Files;
use replies::Reply;
use striding::stride;
use tables::{Table, TableMut};
use terms::Terms;

// The reply to good files: the start set stands in the first table, the end set in the second.
pub fn decide(
    circuit: &[u8],
    files: Files,
    table: &mut TableMut,
    end: &Table,
    met: &mut [u32],
    stack: &mut [u32],
    kept: &mut [u32],
    hints: &mut [u8],
    terms: Terms,
    room: Room,
) -> Reply
    requires { Deciding circuit.now files (lent_is table.old) (table_is end.now) met.old stack.old kept.old hints.old room }
    ensures value { fields_of result ≡ reply_from (decided (bounds_from room)
        (ready (set_on files.form (lent_is table.old)) (gates_from files.form.n circuit.now 0 files.count) (set_on files.endform (table_is end.now))) terms.most) }
    ensures long { SameLengths (lent_is table.old) (lent_is table.new) }
    ensures same_slices { SameLent table.old table.new }
{
    let mut rows = [0u16; ROWS];
    let mut masks = [0u32; MASKS];
    let mut coefs = [0i32; COEFS];
    let mut counts = [0u16; COUNTS];
    let mut first = [0u16; FIRST];
    let mut other = TableMut {
        rows: &mut rows,
        masks: &mut masks,
        coefs: &mut coefs,
        counts: &mut counts,
        first: &mut first,
    };
    let mut cur = [0u64; KEYS];
    let mut keys = [0u64; KEYS];
    let mut link = [0u16; KEYS];
    let mut heads = [0u16; HEADS];
    let mut names = Names {
        keys: &mut keys,
        link: &mut link,
        heads: &mut heads,
        count: 0,
    };
    let image = match run_gates(
        circuit,
        files.count,
        files.form,
        table,
        &mut other,
        &mut cur,
        &mut names,
        room,
    ) {
        Ok(image) => image,
        Err(r) => return Reply::Refused(r),
    };
    let n = files.form.n;
    if image.second {
        let made = other.view();
        return stride(n, &made, end, met, stack, kept, hints, terms.most);
    }
    let made = table.view();
    stride(n, &made, end, met, stack, kept, hints, terms.most)
}
