// A member of the image set is tested, as far as the allowance admits: how far the check is, before and after. The definitions of this crate say
// the members in order, by a walk over choices, and its laws that the check over all of them is document 01's verdict. Crate entering walks.
#![tactic(auto)]

ghost use Rattle.std.specs.Prelude.{true, false, ◌≡◌, length};
ghost use Rattle.automata.specs.Members.{member};
ghost use Rattle.walking.specs.declared.Kind.TheVariants.{Going};
ghost use Rattle.walking.specs.On.{passes_on, TestedOn};
ghost use Rattle.walking.specs.Tallied.{tick_of, Halted, reply_of};

use judging::judge;
use meeting::Sides;
use replies::Reply;

// Words of the spare row that the search has: four to each of 1,024 states of the image.
const SPARE: usize = 4096;

// The check goes on, a member failed, or the allowance was used up.
#[derive(Clone, Copy, PartialEq, Eq)]
pub enum Kind {
    Going,
    Failed,
    Undecided,
}

// How far the check is: the members that passed, with the one that failed counted; and that one's root and word, in 21 places.
// One struct for all kinds: `tick_of` and `tallied` of specs/Tallied say of every tally, whatever its kind, what becomes of its root and word.
#[derive(Clone, Copy)]
pub struct Tally {
    pub kind: Kind,
    pub count: u32,
    pub root: u16,
    pub word: [u8; 21],
}

// What a check is asked, and what it only reads: both sets, which have n qubits; the words of a plane of marks, and the planes that there is room
// for; how many members may be examined; and the marks of the pairs that could match by any words.
#[derive(Clone, Copy)]
pub struct Task<'a> {
    pub sides: Sides<'a>,
    pub n: u8,
    pub plane: u16,
    pub room: u16,
    pub allowance: u32,
    pub free: &'a [u32],
}

// Whether the check has stopped.
#[tactic(auto, unfolding(crate::specs::Tallied::Halted))]
pub fn stopped(t: Tally) -> bool
    ensures halted { result ≡ true → Halted t }
    ensures going { result ≡ false → t.kind ≡ Going }
{
    t.kind != Kind::Going
}

// The reply of a check that is over.
impl From<Tally> for Reply {
    #[tactic(auto, unfolding(crate::specs::Tallied::reply_by))]
    fn from(t: Tally) -> Reply
        ensures { result ≡ reply_of t }
    {
        let word = t.word;
        match t.kind {
            Kind::Going => Reply::Holds(t.count),
            Kind::Failed => Reply::Fails {
                place: t.count,
                root: t.root,
                word,
            },
            Kind::Undecided => Reply::Undecided(t.count),
        }
    }
}

// The tree that the image's root gives by the word is a state of the end set: the search, with a spare row of its own.
fn passes(task: &Task, word: &[u8], may: &mut [u32], met: &mut [u32], root: u16) -> bool
    requires { TestedOn task.now word.now root (length may.old) (length met.old) }
    ensures { result ≡ passes_on task.now (member root word.now) }
{
    let mut spare = [0; SPARE];
    judge(
        task.n,
        &task.sides,
        word,
        met,
        &mut spare,
        may,
        task.plane,
        task.room,
        root,
    )
}

// One member more: the allowance is used up, or the member is tested.
pub fn tick(
    task: &Task,
    may: &mut [u32],
    met: &mut [u32],
    root: u16,
    word: [u8; 21],
    t: Tally,
) -> Tally
    requires { TestedOn task.now word root (length may.old) (length met.old) }
    ensures { result ≡ tick_of (passes_on task.now) task.now.allowance t (member root word) }
{
    if stopped(t) {
        return t;
    }
    if task.allowance <= t.count {
        return Tally {
            kind: Kind::Undecided,
            ..t
        };
    }
    let passed = passes(task, &word, may, met, root);
    let count = t.count + 1;
    if !passed {
        return Tally {
            kind: Kind::Failed,
            count,
            root,
            word,
        };
    }
    Tally { count, ..t }
}
