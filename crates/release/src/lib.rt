// What the release tool calls: document 01, "The release tool is written in C and calls both jobs with byte slices and numbers. Its entry lends the
// work buffers itself and writes the reply into a lent byte buffer". The header is include/zhargutai.h, the reply's layout docs/REPLY.md.
#![tactic(auto)]

pub mod sequences;

ghost use Rattle.std.specs.Prelude.{◌≡◌};
ghost use Rattle.jobs.specs.Entry.{check_entry, check_entry_number, one_gate_entry, one_gate_entry_number, one_gate_entry_output};

use checkjob::check_own;
use onegate::one_gate;
use refusals::Reason;
use replies::{Fields, REPLY_SIZE, put_reply};
use terms::Terms;

// The one-gate job. The number of the reply comes back, 0 where nothing was refused; a reply buffer under 64 bytes gives 17, and nothing is
// written.
#[unsafe(no_mangle)]
pub extern "C" fn zhargutai_one_gate(
    set: &[u8],
    circuit: &[u8],
    output: &mut [u8],
    reply: &mut [u8],
) -> u32
    ensures value { result ≡ one_gate_entry_number set.now circuit.now output.old reply.old }
    ensures output_after { output.new ≡ one_gate_entry_output set.now circuit.now output.old reply.old }
    ensures reply_after { reply.new ≡ one_gate_entry set.now circuit.now output.old reply.old }
{
    if reply.len() < REPLY_SIZE {
        return u32::from(Reason::Short.number());
    }
    let told = one_gate(set, circuit, output);
    put_reply(reply, Fields::from(told))
}

// The check, with the allowance `most`. The number of the reply comes back, 0 where nothing was refused; a reply buffer under 64 bytes gives 17,
// and nothing is written.
#[unsafe(no_mangle)]
pub extern "C" fn zhargutai_check(
    start: &[u8],
    circuit: &[u8],
    end: &[u8],
    most: u32,
    reply: &mut [u8],
) -> u32
    ensures value { result ≡ check_entry_number start.now circuit.now end.now most reply.old }
    ensures reply_after { reply.new ≡ check_entry start.now circuit.now end.now most reply.old }
{
    if reply.len() < REPLY_SIZE {
        return u32::from(Reason::Short.number());
    }
    let told = check_own(start, circuit, end, Terms { most });
    put_reply(reply, Fields::from(told))
}
