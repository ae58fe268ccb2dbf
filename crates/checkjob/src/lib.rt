// Document 01, the job *Check*: "start, circuit, end, allowance B (32 bits, unsigned), work buffers whose sizes docs/ names". It tests the lent
// buffers' sizes, lends just their named sizes to the work, and leaves these at zero (docs/BUFFERS.md). Tables and keys are arrays of its own.
#![tactic(auto)]

ghost use Rattle.std.specs.Prelude.{◌≡◌, replicate};
ghost use Rattle.jobs.specs.Buffers.{wiped_all};
ghost use Rattle.jobs.specs.Check.{check_answer, check_reply, check_work};
ghost use Rattle.replies.specs.Replied.{fields_of, reply_from};
ghost use Rattle.buffers.specs.Sizes.{marks_size, hints_size, MarksSized};
ghost use Rattle.checkjob.specs.Sizes.{check_sizes, check_lent, Long};

use buffers::{END_STATES, HINTS, INNER, LEAVES, MARKS, STATES};
use building::Room;
use checking::check_files;
use refusals::{Reason, Refusal};
use replies::Reply;
use terms::Terms;
use wiping::wipe_marks;

// Room for a set of so many states.
fn room_for(states: u16) -> Room
    ensures { result ≡ record { inner = 2048; leaves = 1024; states = states } }
{
    Room {
        inner: INNER,
        leaves: LEAVES,
        states,
    }
}

// The check in rows of just their named sizes, which it leaves at zero.
fn work(
    start: &[u8],
    circuit: &[u8],
    end: &[u8],
    terms: Terms,
    met: &mut [u32],
    stack: &mut [u32],
    kept: &mut [u32],
    hints: &mut [u8],
) -> Reply
    requires { MarksSized met.old stack.old kept.old hints.old }
    ensures value { fields_of result ≡ reply_from (check_answer start.now circuit.now end.now terms.most) }
    ensures met_after { met.new ≡ replicate marks_size 0 }
    ensures stack_after { stack.new ≡ replicate marks_size 0 }
    ensures kept_after { kept.new ≡ replicate marks_size 0 }
    ensures hints_after { hints.new ≡ replicate hints_size 0 }
{
    let reply = check_files(
        start,
        circuit,
        end,
        met,
        stack,
        kept,
        hints,
        terms,
        room_for(STATES),
        room_for(END_STATES),
    );
    wipe_marks(met, stack, kept, hints);
    reply
}

// The check where the buffers are long enough: just their named sizes are lent to the work.
fn lend(
    start: &[u8],
    circuit: &[u8],
    end: &[u8],
    terms: Terms,
    met: &mut [u32],
    stack: &mut [u32],
    kept: &mut [u32],
    hints: &mut [u8],
) -> Reply
    requires { Long met.old stack.old kept.old hints.old }
    ensures value { fields_of result ≡ reply_from (check_answer start.now circuit.now end.now terms.most) }
    ensures hints_after { check_lent met.new stack.new kept.new hints.new
        ≡ wiped_all check_sizes (check_lent met.old stack.old kept.old hints.old) }
{
    work(
        start,
        circuit,
        end,
        terms,
        &mut met[..MARKS],
        &mut stack[..MARKS],
        &mut kept[..MARKS],
        &mut hints[..HINTS],
    )
}

// The job, for any three files, any terms and any lent buffers.
pub fn check(
    start: &[u8],
    circuit: &[u8],
    end: &[u8],
    terms: Terms,
    met: &mut [u32],
    stack: &mut [u32],
    kept: &mut [u32],
    hints: &mut [u8],
) -> Reply
    ensures value { fields_of result ≡ reply_from (check_reply check_sizes start.now circuit.now end.now terms.most
        (check_lent met.old stack.old kept.old hints.old)) }
    ensures hints_after { check_lent met.new stack.new kept.new hints.new
        ≡ check_work check_sizes (check_lent met.old stack.old kept.old hints.old) }
{
    if met.len() < MARKS || stack.len() < MARKS || kept.len() < MARKS || hints.len() < HINTS {
        return Reply::Refused(Refusal::alone(Reason::Short));
    }
    lend(start, circuit, end, terms, met, stack, kept, hints)
}

// The job with buffers of its own, which are never short: what the C entry and the program call. About 220 KB of the stack are these.
pub fn check_own(start: &[u8], circuit: &[u8], end: &[u8], terms: Terms) -> Reply
    ensures { fields_of result ≡ reply_from (check_answer start.now circuit.now end.now terms.most) }
{
    let mut met = [0u32; MARKS];
    let mut stack = [0u32; MARKS];
    let mut kept = [0u32; MARKS];
    let mut hints = [0u8; HINTS];
    check(
        start, circuit, end, terms, &mut met, &mut stack, &mut kept, &mut hints,
    )
}
