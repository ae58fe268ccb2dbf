// Is a member's tree a state of the end set? The search goes level by level over batches of relations, each of which is looked at once in its
// batch, however many choices of the end set lead to it. Only where the room is too small for all relations of a level does the search go
// back, to the place where the last batch ended.
#![tactic(auto)]

ghost use Rattle.std.specs.Prelude.{◌≡◌, true, ◌+◌, ◌*◌, ◌≤◌, ◌<◌, length, get_or, take};
ghost use Rattle.verdict.specs.Search.{searched};
ghost use Rattle.matching.specs.On.{automaton_of, LentOn, HintsOn};
ghost use Rattle.relating.specs.Found.{found_on};
ghost use Rattle.relating.specs.Roots.{Rooted, Begun};
ghost use Rattle.batching.specs.Fill.{Low};
ghost use Rattle.judging.specs.Judge.{Spaced, JudgingOn, Rise, Started};

use batching::{Step, batch, join};
use matching::{hint_from, next_level};
use meeting::{Level, Sides, is_met, meet, meet_none};
use relating::leads;

// The end root to go on from, and the relations there are.
#[derive(Clone, Copy)]
pub struct Start {
    pub root: u16,
    pub count: u16,
}

// The search by a member's word: the marks of the pairs that could match by it, the words of a plane, and the planes that there is room for.
#[derive(Clone, Copy)]
struct Search<'a> {
    sides: Sides<'a>,
    word: &'a [u8],
    may: &'a [u32],
    plane: u16,
    room: u16,
}

// Some word of the end set gives equal trees to all pairs of one of the first p relations on this level.
fn judge_from(
    search: &Search,
    left: u8,
    at: u8,
    stack: &mut [u32],
    scratch: &mut [u32],
    p: u16,
    level: Level,
) -> bool
    requires { JudgingOn search.now p (length stack.old) (length scratch.old) at left level × HintsOn search.now.sides search.now.word.now search.now.may.now (at + left) }
    ensures { (result ≡ found_on search.now.sides search.now.word.now at left search.now.plane stack.old p level) × Low search.now.sides.wide search.now.plane level stack.old stack.new }
{
    let c = search.word[at as usize];
    if left == 0 {
        return leads(&search.sides, stack, search.plane, p, c, level);
    }
    let next = next_level(&search.sides, at, level);
    let step = Step {
        sides: search.sides,
        may: search.may,
        c,
        level,
        next,
        plane: search.plane,
        room: search.room,
    };
    let all = p as u32 * 32;
    let mut place: u32 = 0;
    // A while: the place to go on from is what batch says, and not the next one.
    while place < all {
        let reached = batch(&step, stack, p, scratch, place);
        if judge_from(
            search,
            left - 1,
            at + 1,
            stack,
            scratch,
            reached.count,
            next,
        ) {
            return true;
        }
        place = reached.place;
    }
    false
}

// The pair of the root and end root e becomes relation p, if it could match. The relations there are then.
fn begin_pair(
    stack: &mut [u32],
    plane: u16,
    p: u16,
    wide: u16,
    may: &[u32],
    scratch: &mut [u32],
    root: u16,
    e: u16,
    level: Level,
) -> u16
    requires { Rooted plane wide (length may.now) root level × (p * plane + plane ≤ length stack.old) × (plane ≤ length scratch.old) × (p < 65535) × (level.start ≤ e) × (e < level.stop) }
    ensures { Begun wide plane stack.old p root e level stack.new result × Rise wide plane may.now stack.old p root level e (e + 1) stack.new result }
{
    if !is_met(may, wide, root, e) {
        return p;
    }
    meet_none(scratch, wide, level.from, level.to);
    meet(scratch, wide, root, e);
    join(stack, plane, p, wide, scratch, level)
}

// Relations for the image's root, one for each end root from `from` on that could match it, while there is room.
pub fn begin_from(
    stack: &mut [u32],
    plane: u16,
    room: u16,
    wide: u16,
    may: &[u32],
    scratch: &mut [u32],
    root: u16,
    from: u16,
    level: Level,
) -> Start
    requires { Rooted plane wide (length may.now) root level × (room * plane ≤ length stack.old) × (plane ≤ length scratch.old) × (level.start ≤ from) }
    ensures { Started wide plane room may.now stack.old root level from result.root stack.new result.count }
{
    let mut p: u16 = 0;
    for e in from..level.stop {
        if p == room {
            return Start { root: e, count: p };
        }
        p = begin_pair(stack, plane, p, wide, may, scratch, root, e, level);
    }
    Start {
        root: level.stop.max(from),
        count: p,
    }
}

// The tree that the image's root gives by the word is a state of the end set. The stack has room for `room` relations of `plane` words each.
pub fn judge(
    n: u8,
    sides: &Sides,
    word: &[u8],
    stack: &mut [u32],
    scratch: &mut [u32],
    may: &mut [u32],
    plane: u16,
    room: u16,
    root: u16,
) -> bool
    requires { LentOn sides.now word.now plane n × LentOn sides.now word.now (length may.old) n × Spaced plane room 0 (length stack.old) (length scratch.old) × (root < get_or sides.now.image.counts.now 0 0) }
    ensures { result ≡ searched (automaton_of sides.now.image) (automaton_of sides.now.end) (get_or sides.now.end.counts.now 0 0) n (take (n + 1) word.now) root }
{
    let roots = sides.end.counts[0];
    let level = Level {
        from: 0,
        to: sides.image.counts[0],
        start: 0,
        stop: roots,
    };
    hint_from(n, 0, sides, word, may, level);
    let search = Search {
        sides: *sides,
        word,
        may,
        plane,
        room,
    };
    let mut e: u16 = 0;
    // A while: the end root to go on from is what begin_from says, and not the next one.
    while e < roots {
        let start = begin_from(stack, plane, room, sides.wide, may, scratch, root, e, level);
        if judge_from(&search, n, 0, stack, scratch, start.count, level) {
            return true;
        }
        e = start.root;
    }
    false
}
