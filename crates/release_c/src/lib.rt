// What a C program links: the four entries of crate release under their own names, with its clauses. A static library cannot be called by a Rattle
// crate, and a library has no archive, so the entries stand in release and this crate hands each call on.
#![tactic(auto)]

ghost use Rattle.std.specs.Prelude.{◌≡◌};
ghost use Rattle.cliffords.specs.Entry.{closing_entry, closing_entry_number, spell_entry, spell_entry_number, spell_entry_output};
ghost use Rattle.jobs.specs.Entry.{check_entry, check_entry_number, one_gate_entry, one_gate_entry_number, one_gate_entry_output};

use release::sequences;

// The one-gate job. The number of the reply comes back, 0 where nothing was refused; a reply buffer under 64 bytes gives 17, and nothing is
// written.
#[unsafe(no_mangle)]
pub extern "C" fn zhargutai_one_gate(
    set: &[u8],
    circuit: &[u8],
    output: &mut [u8],
    reply: &mut [u8],
) -> u32
    ensures value { result ≡ one_gate_entry_number set.now circuit.now output.old reply.old }
    ensures output_after { output.new ≡ one_gate_entry_output set.now circuit.now output.old reply.old }
    ensures reply_after { reply.new ≡ one_gate_entry set.now circuit.now output.old reply.old }
{
    release::zhargutai_one_gate(set, circuit, output, reply)
}

// The check, with the allowance `most`. The number of the reply comes back, 0 where nothing was refused; a reply buffer under 64 bytes gives 17,
// and nothing is written.
#[unsafe(no_mangle)]
pub extern "C" fn zhargutai_check(
    start: &[u8],
    circuit: &[u8],
    end: &[u8],
    most: u32,
    reply: &mut [u8],
) -> u32
    ensures value { result ≡ check_entry_number start.now circuit.now end.now most reply.old }
    ensures reply_after { reply.new ≡ check_entry start.now circuit.now end.now most reply.old }
{
    release::zhargutai_check(start, circuit, end, most, reply)
}

// The element that brings a sequence to the identity, as the reply's count. The number of the reply comes back, 0 where nothing was refused; a reply
// buffer under 64 bytes gives 17, and nothing is written.
#[unsafe(no_mangle)]
pub extern "C" fn zhargutai_closing(sequence: &[u8], reply: &mut [u8]) -> u32
    ensures value { result ≡ closing_entry_number sequence.now reply.old }
    ensures reply_after { reply.new ≡ closing_entry sequence.now reply.old }
{
    sequences::zhargutai_closing(sequence, reply)
}

// The codes of the element's word at the front of the output, and how many as the reply's count. The number of the reply comes back, 0 where nothing
// was refused; a reply buffer under 64 bytes gives 17, and nothing is written.
#[unsafe(no_mangle)]
pub extern "C" fn zhargutai_spell(element: u32, output: &mut [u8], reply: &mut [u8]) -> u32
    ensures value { result ≡ spell_entry_number element output.old reply.old }
    ensures output_after { output.new ≡ spell_entry_output element output.old reply.old }
    ensures reply_after { reply.new ≡ spell_entry element output.old reply.old }
{
    sequences::zhargutai_spell(element, output, reply)
}
