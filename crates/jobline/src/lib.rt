// The program's line for an input of any length: document 01, "It prints one line". `job_line`, the only public function, asks nothing of its
// caller; the check that it calls has buffers of its own.
#![tactic(auto)]

ghost use Rattle.std.specs.Prelude.{◌≡◌, ◌+◌, ◌≤◌, get_or, length};
ghost use Rattle.stored.specs.Rules.{n_most};
ghost use Rattle.jobs.specs.Reply.{word_places};
ghost use Rattle.lines.specs.Divided.{Divided};
ghost use Rattle.lines.specs.Printed.{line_room};
ghost use Rattle.jobline.specs.Line.{line_put, line_length};

use checkjob::check_own;
use lines::input::{Parts, divide};
use lines::line::{LINE_ROOM, put_line};
use refusals::{Reason, Refusal};
use replies::{Fields, Reply};
use terms::Terms;

// Where a set file has its n.
const N_AT: usize = 3;

// "n from 1 to 20"
const N_MOST: u8 = 20;

// "the word's n+1 choices", by the start set's n. A set whose n is out of range is refused, and has no word; 1 comes back.
fn choices_in(start: &[u8]) -> u8
    ensures { (result ≤ word_places) × (get_or start.now 3 0 ≤ n_most → result ≡ get_or start.now 3 0 + 1) }
{
    match start.get(N_AT) {
        Some(n) if *n <= N_MOST => *n + 1,
        _ => 1,
    }
}

// The line of an input that divides.
fn put_job(input: &[u8], parts: Parts<'_>, out: &mut [u8]) -> usize
    requires { Divided input.now parts.allowance parts.start.now parts.circuit.now parts.end.now × (line_room ≤ length out.old) }
    ensures value { result ≡ line_length input.now out.old }
    ensures out_after { out.new ≡ line_put input.now out.old }
{
    let most = parts.allowance;
    let reply = check_own(parts.start, parts.circuit, parts.end, Terms { most });
    put_line(Fields::from(reply), choices_in(parts.start), out)
}

// The program's line at the front of `out`, and how long it is. Where fewer than 160 bytes are lent, nothing is written and 0 comes back.
pub fn job_line(input: &[u8], out: &mut [u8]) -> usize
    ensures value { result ≡ line_length input.now out.old }
    ensures out_after { out.new ≡ line_put input.now out.old }
{
    if out.len() < LINE_ROOM {
        return 0;
    }
    match divide(input) {
        Some(parts) => put_job(input, parts, out),
        None => {
            // "18 | program only": any other input is no job.
            let no_job = Reply::Refused(Refusal::alone(Reason::NoJob));
            put_line(Fields::from(no_job), 1, out)
        }
    }
}
