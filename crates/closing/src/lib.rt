// Document 02, request 10: the closing element of a sequence, and an element spelled in H and S. `close_sequence` and `spell` are public and ask for
// nothing: whatever the bytes and the number are, the answer is a reply.
#![tactic(auto)]

ghost use Rattle.std.specs.Prelude.{◌≡◌, true, ◌<◌};
ghost use Rattle.replies.specs.Replied.{fields_of, reply_from};
ghost use Rattle.cliffords.specs.Elements.{elements_most};
ghost use Rattle.cliffords.specs.Sequences.{all_of, inverse};
ghost use Rattle.cliffords.specs.Jobs.{all_elements, closing_reply, spell_reply, spell_output};

use elements::{product, put_word};
use refusals::{Reason, Refusal, Source};
use replies::Reply;

// "up to 4,096 numbers"
const SEQUENCE_MOST: usize = 4096;

// Elements are below 24, and the identity is 2.
const ELEMENTS: u8 = 24;

const IDENTITY: u8 = 2;

// A word has at most six letters.
const LETTERS_MOST: usize = 6;

// The element that, played after p, comes to the identity: the column of row p in which the identity stands.
fn inverse_of(p: u8) -> u8
    requires { p < elements_most }
    ensures { result ≡ inverse p }
{
    for q in 0..ELEMENTS {
        if product(p, q) == IDENTITY {
            return q;
        }
    }
    IDENTITY
}

// Whether no number is over 23.
fn all_elements(seq: &[u8]) -> bool
    ensures { result ≡ all_elements seq.now }
{
    seq.iter().all(|e| *e < ELEMENTS)
}

// All of a sequence as one element, the first played first.
fn all_of(seq: &[u8]) -> u8
    requires { all_elements seq.now ≡ true }
    ensures { (result ≡ all_of seq.now) × (result < elements_most) }
{
    let mut all = IDENTITY;
    for e in seq {
        all = product(all, *e);
    }
    all
}

// The element that brings a sequence to the identity.
pub fn close_sequence(seq: &[u8]) -> Reply
    ensures { fields_of result ≡ reply_from (closing_reply seq.now) }
{
    let good = all_elements(seq);
    if SEQUENCE_MOST < seq.len() {
        return Reply::Refused(Refusal {
            reason: Reason::Sequence,
            source: Source::Circuit,
            place: 0,
        });
    }
    if !good {
        return Reply::Refused(Refusal {
            reason: Reason::Element,
            source: Source::Circuit,
            place: 0,
        });
    }
    Reply::Made(u32::from(inverse_of(all_of(seq))))
}

// The codes of an element's word, 4 for H and 5 for S, at the front of `out`, which has at least six bytes; all further bytes stay.
pub fn spell(element: u32, out: &mut [u8]) -> Reply
    ensures value { fields_of result ≡ reply_from (spell_reply element out.old) }
    ensures out_after { out.new ≡ spell_output element out.old }
{
    if out.len() < LETTERS_MOST {
        return Reply::Refused(Refusal::alone(Reason::Short));
    }
    if u32::from(ELEMENTS) <= element {
        return Reply::Refused(Refusal {
            reason: Reason::Element,
            source: Source::Circuit,
            place: 0,
        });
    }
    Reply::Made(u32::from(put_word(element as u8, out)))
}
