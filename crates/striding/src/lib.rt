// The check's last phase by the walk that remembers. Its members are those of crate walking, in the same order, and its reply is the same.
#![tactic(auto)]

ghost use Rattle.std.specs.Prelude.{◌≡◌, suc, ◌*◌, ◌≤◌, ◌<◌, length, get_or, sum};
ghost use Rattle.automata.specs.Members.{flat, up_to};
ghost use Rattle.imagewise.specs.Image.{image_verdict};
ghost use Rattle.jobs.specs.Reply.{says};
ghost use Rattle.tables.specs.Slices.{table_is};
ghost use Rattle.replies.specs.Replied.{fields_of, reply_from};
ghost use Rattle.walking.specs.On.{passes_on, root_on};
ghost use Rattle.walking.specs.Tallied.{tallied, reply_of};
ghost use Rattle.walking.proofs.Verdicts.{going};
ghost use Rattle.entering.specs.On.{StartedOn};
ghost use Rattle.striding.specs.Lodged.{LodgedOn, SharedOn};

use entering::visit_root;
use foreseeing::foresee;
use meeting::Sides;
use outcomes::{CELLS, Walk};
use remembering::{LEVELS, Slots};
use replies::Reply;
use tables::Table;
use walking::{Kind, Tally, Task};

// Words of the marks of pairs that could match: four to each of 1,024 states of the image.
const PAIRS: usize = 4096;

// Words of the rows that are shared out, and the most parts.
const WORDS: u16 = 16384;

const PARTS: u16 = 16;

// Cells of what is known of the blocks in all slots: one for each slot and level.
const SEEN: usize = PARTS as usize * LEVELS;

// How the rows are shared out: the words of a plane, the planes of a stack, and the slots of a stack each.
#[derive(Clone, Copy)]
struct Shares {
    plane: u16,
    room: u16,
    slots: u16,
}

// The members of all roots, in order.
fn visit_roots(task: &Task, walk: &mut Walk, slots: &mut Slots) -> Reply
    requires { StartedOn task.now walk.old slots.old }
    ensures { result ≡ reply_of (tallied (passes_on task.now) task.now.allowance (going 0) (flat (root_on task.now) (up_to 0 (get_or task.now.sides.image.counts.now 0 0)))) }
{
    let mut so_far = Tally {
        kind: Kind::Going,
        count: 0,
        root: 0,
        word: [0; 21],
    };
    for r in 0..task.sides.image.counts[0] {
        so_far = visit_root(task, walk, slots, r, so_far);
    }
    Reply::from(so_far)
}

// The same with buffers of its own, where nothing is remembered yet, and with the marks of the pairs that could match by any words.
fn lodge(
    n: u8,
    sides: &Sides,
    shares: Shares,
    met: &mut [u32],
    stack: &mut [u32],
    kept: &mut [u32],
    hints: &mut [u8],
    b: u32,
) -> Reply
    requires { LodgedOn (table_is sides.now.image) (table_is sides.now.end) (length met.old) (length stack.old) (length kept.old) (length hints.old) n × SharedOn sides.now shares n }
    ensures { (g : LodgedOn (table_is sides.now.image) (table_is sides.now.end) (length met.old) (length stack.old) (length kept.old) (length hints.old) n) → fields_of result ≡ reply_from (says (image_verdict g.image.set g.ends.set b)) }
{
    let mut free = [0; PAIRS];
    foresee(n, sides, &mut free);
    let task = Task {
        sides: *sides,
        n,
        plane: shares.plane,
        room: shares.room,
        allowance: b,
        free: &free,
    };
    let mut may = [0; PAIRS];
    let mut reached = [0; CELLS as usize];
    let mut walk = Walk {
        may: &mut may,
        met,
        stack,
        reached: &mut reached,
    };
    let mut seen = [None; SEEN];
    let mut turn = [0; LEVELS];
    let mut slots = Slots {
        count: shares.slots,
        rows: hints,
        kept,
        seen: &mut seen,
        turn: &mut turn,
    };
    visit_roots(&task, &mut walk, &mut slots)
}

// The states of these levels.
fn states(counts: &[u16]) -> u16
    requires { sum counts.now < 65536 }
    ensures { result ≡ sum counts.now }
{
    counts.iter().sum()
}

// How many parts of so many words the buffer has room for, at most 16; at least one if it has room for one.
fn share(size: u16) -> u16
    ensures { (result ≤ 16) × (result * size ≤ 16384) × (size ≤ 16384 → 0 < result) }
{
    if size == 0 {
        PARTS
    } else {
        PARTS.min(WORDS / size)
    }
}

// The check's last phase: the members of the image set, in order, each tested, up to the allowance b. The four buffers are
// lent one by one, as the job's caller lends them; `lodge` makes the walk's structs from them.
pub fn stride(
    n: u8,
    image: &Table,
    end: &Table,
    met: &mut [u32],
    stack: &mut [u32],
    kept: &mut [u32],
    hints: &mut [u8],
    b: u32,
) -> Reply
    requires { LodgedOn (table_is image.now) (table_is end.now) (length met.old) (length stack.old) (length kept.old) (length hints.old) n }
    ensures { (g : LodgedOn (table_is image.now) (table_is end.now) (length met.old) (length stack.old) (length kept.old) (length hints.old) n) → fields_of result ≡ reply_from (says (image_verdict g.image.set g.ends.set b)) }
{
    let last = usize::from(n);
    let wide = states(&end.counts[..=last]).div_ceil(32);
    let plane = states(&image.counts[..=last]) * wide;
    let room = share(plane);
    let slots = share(room * plane);
    let sides = Sides {
        image: *image,
        end: *end,
        wide,
    };
    let shares = Shares { plane, room, slots };
    lodge(n, &sides, shares, met, stack, kept, hints, b)
}
