// What the laboratory calls: document 02, request 10, the closing element of a sequence of Clifford elements, and an element spelled in H and S. Each
// entry writes its job's reply into the buffer that a caller lends.
ghost use Rattle.std.specs.Prelude.{◌≡◌};
ghost use Rattle.cliffords.specs.Entry.{closing_entry, closing_entry_number, spell_entry, spell_entry_number, spell_entry_output};

use closing::{close_sequence, spell};
use refusals::Reason;
use replies::{Fields, REPLY_SIZE, put_reply};

// The element that brings a sequence to the identity, as the reply's count. The number of the reply comes back, 0 where nothing was refused; a reply
// buffer under 64 bytes gives 17, and nothing is written.
#[unsafe(no_mangle)]
pub extern "C" fn zhargutai_closing(sequence: &[u8], reply: &mut [u8]) -> u32
    ensures value { result ≡ closing_entry_number sequence.now reply.old }
    ensures reply_after { reply.new ≡ closing_entry sequence.now reply.old }
{
    put_reply(reply, Fields::from(close_sequence(sequence)))
}

// The codes of the element's word at the front of the output, and how many as the reply's count. The number of the reply comes back, 0 where nothing
// was refused; a reply buffer under 64 bytes gives 17, and nothing is written.
#[unsafe(no_mangle)]
pub extern "C" fn zhargutai_spell(element: u32, output: &mut [u8], reply: &mut [u8]) -> u32
    ensures value { result ≡ spell_entry_number element output.old reply.old }
    ensures output_after { output.new ≡ spell_entry_output element output.old reply.old }
    ensures reply_after { reply.new ≡ spell_entry element output.old reply.old }
{
    if reply.len() < REPLY_SIZE {
        return u32::from(Reason::Short.number());
    }
    put_reply(reply, Fields::from(spell(element, output)))
}
