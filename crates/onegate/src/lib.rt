// Document 01, the job *One gate*: "set (source 1), a circuit of exactly 6 bytes (else 11), output of at least 49,248 bytes (else 17)". Its tables and
// keys are arrays of its own, about 100 KB of stack, so that a caller lends the output only (docs/BUFFERS.md).
#![tactic(auto)]

ghost use Rattle.std.specs.Prelude.{◌≡◌, ◌≤◌, length};
ghost use Rattle.jobs.specs.OneGate.{output_size, new_set, with_file, one_gate_reply, one_gate_output};
ghost use Rattle.replies.specs.Replied.{fields_of, reply_from};
ghost use Rattle.gating.specs.Gated.{length_reply};

use buffers::{COEFS, COUNTS, FIRST, HEADS, INNER, KEYS, LEAVES, MASKS, OUTPUT, ROWS, STATES};
use building::Room;
use gating::gate_file;
use names::Names;
use refusals::{Reason, Refusal};
use replies::Reply;
use tables::TableMut;

// The job where the output is long enough.
fn gate_own(set: &[u8], circuit: &[u8], output: &mut [u8]) -> Reply
    requires { output_size ≤ length output.old }
    ensures value { fields_of result ≡ reply_from (length_reply (new_set set.now circuit.now)) }
    ensures output_after { output.new ≡ with_file output.old (new_set set.now circuit.now) }
{
    let mut rows = [0u16; ROWS];
    let mut masks = [0u32; MASKS];
    let mut coefs = [0i32; COEFS];
    let mut counts = [0u16; COUNTS];
    let mut first = [0u16; FIRST];
    let mut old = TableMut {
        rows: &mut rows,
        masks: &mut masks,
        coefs: &mut coefs,
        counts: &mut counts,
        first: &mut first,
    };
    let mut newrows = [0u16; ROWS];
    let mut newmasks = [0u32; MASKS];
    let mut newcoefs = [0i32; COEFS];
    let mut newcounts = [0u16; COUNTS];
    let mut newfirst = [0u16; FIRST];
    let mut new = TableMut {
        rows: &mut newrows,
        masks: &mut newmasks,
        coefs: &mut newcoefs,
        counts: &mut newcounts,
        first: &mut newfirst,
    };
    let mut cur = [0u64; KEYS];
    let mut keys = [0u64; KEYS];
    let mut link = [0u16; KEYS];
    let mut heads = [0u16; HEADS];
    let mut names = Names {
        keys: &mut keys,
        link: &mut link,
        heads: &mut heads,
        count: 0,
    };
    let room = Room {
        inner: INNER,
        leaves: LEAVES,
        states: STATES,
    };
    gate_file(
        set, circuit, &mut old, &mut cur, &mut names, &mut new, output, room,
    )
}

// The job, for any set, circuit and output.
pub fn one_gate(set: &[u8], circuit: &[u8], output: &mut [u8]) -> Reply
    ensures value { fields_of result ≡ reply_from (one_gate_reply set.now circuit.now output.old) }
    ensures output_after { output.new ≡ one_gate_output set.now circuit.now output.old }
{
    if output.len() < OUTPUT {
        return Reply::Refused(Refusal::alone(Reason::Short));
    }
    gate_own(set, circuit, output)
}
