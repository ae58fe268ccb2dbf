// A reply, as the code hands it on, and the 64 bytes that the C entry writes of it: document 01, "Replies", and docs/REPLY.md. One enum
// serves every job. `fields_of` of specs/Replied.antt says which fields a reply has, and `reply_from` those of a reply of the definitions: each job
// promises that the two are the same. Only `put_bytes` has a `requires`: a reply buffer may be of any length.
#![tactic(auto)]

ghost use Rattle.std.specs.Prelude.{◌≡◌, [], ◌∷◌, ◌++◌, ◌≤◌, length, drop};
ghost use Rattle.jobs.specs.Entry.{reply_size};
ghost use Rattle.packing.specs.Written.{at_front};
ghost use Rattle.replies.specs.Replied.{fields_of};
ghost use Rattle.replies.specs.Laid.{bytes_of, laid, told};

use putting::put_u32;
use refusals::{Reason, Refusal};
use wiping::zero_front_u8;

// The size of a reply in bytes.
pub const REPLY_SIZE: usize = 64;

// What a job answers: a refusal; a new set, of so many bytes; or what the check says. It holds after so many starts; it fails at the start of this
// place, from 1, whose root and word these are; or it stopped undecided, after so many starts.
#[derive(Clone, Copy)]
pub enum Reply {
    Refused(Refusal),
    Made(u32),
    Holds(u32),
    Fails {
        place: u32,
        root: u16,
        word: [u8; 21],
    },
    Undecided(u32),
}

// "0 refused, 1 made, 2 holds, 3 fails, 4 undecided": the kinds as a reply's byte has them. put_reply and put_line promise for any seven numbers, so
// that `Fields` has numbers where `Reply` is an enum.
pub const REFUSED: u8 = 0;

pub const MADE: u8 = 1;

pub const HOLDS: u8 = 2;

pub const FAILS: u8 = 3;

pub const UNDECIDED: u8 = 4;

// The fields of a reply, as its bytes list them. A kind of reply that does not use one of them has 0 there.
#[derive(Clone, Copy)]
pub struct Fields {
    pub kind: u8,
    pub number: u8,
    pub source: u8,
    pub place: u32,
    pub count: u32,
    pub root: u16,
    pub word: [u8; 21],
}

// Each variant's kind, and what it holds.
impl From<Reply> for Fields {
    fn from(reply: Reply) -> Fields
        ensures { result ≡ fields_of reply }
    {
        let none = Fields {
            kind: REFUSED,
            number: 0,
            source: 0,
            place: 0,
            count: 0,
            root: 0,
            word: [0; 21],
        };
        match reply {
            Reply::Refused(r) => Fields {
                number: r.reason.number(),
                source: r.source.number(),
                place: r.place,
                ..none
            },
            Reply::Made(length) => Fields {
                kind: MADE,
                count: length,
                ..none
            },
            Reply::Holds(count) => Fields {
                kind: HOLDS,
                count,
                ..none
            },
            Reply::Fails { place, root, word } => Fields {
                kind: FAILS,
                count: place,
                root,
                word,
                ..none
            },
            Reply::Undecided(count) => Fields {
                kind: UNDECIDED,
                count,
                ..none
            },
        }
    }
}

// All of `bytes`, at the front of `out`; what stands after them is as it was.
pub fn put_bytes(out: &mut [u8], bytes: &[u8])
    requires { length bytes.now ≤ length out.old }
    ensures { out.new ≡ at_front bytes.now out.old }
{
    out[..bytes.len()].copy_from_slice(bytes);
}

// The first four bytes: "kind, number, source, a zero byte".
fn put_kind(out: &mut [u8], kind: u8, number: u8, source: u8)
    requires { 4 ≤ length out.old }
    ensures { out.new ≡ at_front (kind ∷ number ∷ source ∷ 0 ∷ []) out.old }
{
    out[..4].copy_from_slice(&[kind, number, source, 0]);
}

// The 64 bytes of a reply, at the front of `out`.
fn put_whole(out: &mut [u8], reply: Fields)
    requires { reply_size ≤ length out.old }
    ensures { out.new ≡ bytes_of reply ++ drop reply_size out.old }
{
    let word = reply.word;
    put_kind(out, reply.kind, reply.number, reply.source);
    put_u32(&mut out[4..], reply.place);
    put_u32(&mut out[8..], reply.count);
    put_u32(&mut out[12..], u32::from(reply.root));
    put_bytes(&mut out[16..], &word);
    zero_front_u8(&mut out[37..], 27);
}

// The reply at the front of the buffer that a caller lends, and its number, 0 where nothing was refused. "A shorter one gives 17 and stays."
pub fn put_reply(lent: &mut [u8], reply: Fields) -> u32
    ensures lent_after { lent.new ≡ laid reply lent.old }
    ensures value { result ≡ told reply lent.old }
{
    if lent.len() < REPLY_SIZE {
        return u32::from(Reason::Short.number());
    }
    put_whole(lent, reply);
    u32::from(reply.number)
}
