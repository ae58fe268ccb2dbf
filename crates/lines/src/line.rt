// The program's line: "`holds` count; `fails` place, root, the word's n+1 choices; `undecided` count; or `refused` number, source, place.
// Single spaces between fields." Each function writes at the front of what it is lent and lends the unwritten tail on, so that none can
// reach what an earlier one wrote; it returns how many bytes it wrote. `put_line`, the only public function,
// asks nothing of its caller.
ghost use Rattle.std.specs.Prelude.{◌≡◌, [], ◌∷◌, ◌++◌, ◌+◌, ◌*◌, ◌≤◌, length, take};
ghost use Rattle.jobs.specs.Reply.{word_places};
ghost use Rattle.lines.specs.Numeral.{field, field_list};
ghost use Rattle.lines.specs.Put.{Put};
ghost use Rattle.lines.specs.Printed.{refused_name, fails_name, words_of, words_most, words_room, line_of, line_room, printed_in, printed_length};

use crate::digits::put_decimal;
use replies::{FAILS, Fields, HOLDS, MADE, REFUSED, put_bytes};

// Room for every line.
pub const LINE_ROOM: usize = 160;

// "the word in 21 places"
const WORD_PLACES: u8 = 21;

// A space and a number.
fn put_field(out: &mut [u8], n: u32) -> usize
    requires { 11 ≤ length out.old }
    ensures { Put (field n) 11 out.old out.new result }
{
    put_bytes(out, b" ");
    1 + put_decimal(&mut out[1..], n)
}

// A field for each of the numbers.
fn put_fields(out: &mut [u8], numbers: &[u8]) -> usize
    requires { 4 * length numbers.now + 7 ≤ length out.old }
    ensures { Put (field_list numbers.now) (4 * length numbers.now) out.old out.new result }
{
    let mut at = 0;
    for number in numbers {
        at += put_field(&mut out[at..], u32::from(*number));
    }
    at
}

// A word and a count.
fn put_count(out: &mut [u8], name: &[u8], count: u32) -> usize
    requires { length name.now + 11 ≤ length out.old }
    ensures { Put (name.now ++ field_list (count ∷ [])) (length name.now + 11) out.old out.new result }
{
    let at = name.len();
    put_bytes(out, name);
    at + put_field(&mut out[at..], count)
}

// "`refused` number, source, place"
fn put_refused(out: &mut [u8], reply: Fields) -> usize
    requires { 40 ≤ length out.old }
    ensures { Put (refused_name ++ field_list (reply.number ∷ reply.source ∷ reply.place ∷ [])) 26 out.old out.new result }
{
    put_bytes(out, b"refused");
    let at = 7 + put_fields(&mut out[7..], &[reply.number, reply.source]);
    at + put_field(&mut out[at..], reply.place)
}

// "`fails` place, root, the word's n+1 choices": of the word's places as many as are asked for.
fn put_fails(out: &mut [u8], place: u32, root: u16, word: &[u8], choices: usize) -> usize
    requires { (words_room ≤ length out.old) × (choices ≤ word_places) × (choices ≤ length word.now) }
    ensures { Put (fails_name ++ field_list (place ∷ root ∷ take choices word.now)) words_most out.old out.new result }
{
    put_bytes(out, b"fails");
    let root_at = 5 + put_field(&mut out[5..], place);
    let word_at = root_at + put_field(&mut out[root_at..], u32::from(root));
    word_at + put_fields(&mut out[word_at..], &word[..choices])
}

// The words and numbers of a line, by the reply's kind; `made`, which the program never replies, has none.
fn put_words(out: &mut [u8], reply: Fields, choices: u8) -> usize
    requires { (words_room ≤ length out.old) × (choices ≤ word_places) }
    ensures { Put (words_of reply choices) words_most out.old out.new result }
{
    let word = reply.word;
    match reply.kind {
        REFUSED => put_refused(out, reply),
        MADE => 0,
        HOLDS => put_count(out, b"holds", reply.count),
        FAILS => put_fails(out, reply.count, reply.root, &word, usize::from(choices)),
        _ => put_count(out, b"undecided", reply.count),
    }
}

// The words and numbers of a line, and its end.
fn put_whole(out: &mut [u8], reply: Fields, choices: u8) -> usize
    requires { (line_room ≤ length out.old) × (choices ≤ word_places) }
    ensures { Put (line_of reply choices) 112 out.old out.new result }
{
    let at = put_words(out, reply, choices);
    put_bytes(&mut out[at..], b"\n");
    at + 1
}

// A reply's line at the front of `out`, with the first `choices` places of its word, and how long it is. Where fewer than 160 bytes are lent,
// or more than 21 choices are asked for, nothing is written and 0 comes back.
pub fn put_line(reply: Fields, choices: u8, out: &mut [u8]) -> usize
    ensures value { result ≡ printed_length reply choices out.old }
    ensures out_after { out.new ≡ printed_in reply choices out.old }
{
    let fit = (LINE_ROOM <= out.len()) & (choices <= WORD_PLACES);
    if fit {
        return put_whole(out, reply, choices);
    }
    0
}
