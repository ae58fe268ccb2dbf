// The search level by level, over the marks of the pairs of an image state and an end state that must match: the definitions that say it on
// tables, its laws, the next level, and the marks of the pairs that could match at all by a member's word. Crate judging searches by them.
#![tactic(auto)]

ghost use Rattle.std.specs.Prelude.{◌+◌, length};
ghost use Rattle.matching.specs.On.{IsLevelOn, NextFitsOn, SeekingOn, SoundOn};

use hinting::{hint_kids, hint_leaves};
use meeting::{Level, Sides, meet_none};

// The next level's states.
pub fn next_level(sides: &Sides, at: u8, level: Level) -> Level
    requires { IsLevelOn sides.now at level × NextFitsOn sides.now at }
    ensures { IsLevelOn sides.now (at + 1) result }
{
    let from = level.to;
    let start = level.stop;
    let below = at as usize + 1;
    Level {
        from,
        to: from + sides.image.counts[below],
        start,
        stop: start + sides.end.counts[below],
    }
}

// The pairs that could match at all by the word, on this level and all below it, are marked.
pub fn hint_from(left: u8, at: u8, sides: &Sides, word: &[u8], may: &mut [u32], level: Level)
    requires { SeekingOn sides.now word.now (length may.old) at left level }
    ensures { SoundOn sides.now word.now may.new at (at + left) }
{
    let c = word[at as usize];
    meet_none(may, sides.wide, level.from, level.to);
    if left == 0 {
        hint_leaves(sides, may, c, level);
        return;
    }
    let next = next_level(sides, at, level);
    hint_from(left - 1, at + 1, sides, word, may, next);
    hint_kids(sides, may, c, level);
}
