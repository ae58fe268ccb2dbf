// Several relations at a time. A relation is a row of marks over all levels (crate meeting); several stand as planes in one lent stack: plane j
// in the words j * plane up to below (j + 1) * plane.
#![tactic(auto)]

ghost use Rattle.std.specs.Prelude.{◌≡◌, ℕ, ◌+◌, ◌*◌, ◌≤◌, ◌<◌, List, length, get_or};
ghost use Rattle.automata.specs.Choice.{choices_most};
ghost use Rattle.fitting.specs.Fit.{LeafStageOn};
ghost use Rattle.relating.specs.Found.{plane_of, sought_on, found_on};
ghost use Rattle.relating.specs.Planes.{Copied, Room};

use fitting::fit_any;
use meeting::{Level, Sides};

// The words of `count` states.
pub fn words(wide: u16, count: u16) -> usize
    ensures { result ≡ count * wide }
{
    (count as usize) * (wide as usize)
}

// Word `at` of plane j.
pub fn cell(plane: u16, j: u16, at: usize) -> usize
    requires { at ≤ 4294967295 }
    ensures { result ≡ j * plane + at }
{
    (j as usize) * (plane as usize) + at
}

// The words of `source` from `at` on, `count` of them, go to the words from `there` on: one by one, since they are few, and the library's copy of a
// part would ask whoever links the archive for memmove.
pub fn copy_words(source: &[u32], at: usize, words: &mut [u32], there: usize, count: usize)
    requires { (at + count ≤ length source.now) × (there + count ≤ length words.old) }
    ensures { Copied source.now at words.old there count words.new }
{
    for i in 0..count {
        words[there + i] = source[at + i];
    }
}

// The level's marks of plane k become those of another row.
pub fn copy_out(stack: &[u32], plane: u16, k: u16, wide: u16, row: &mut [u32], level: Level)
    requires { Room plane (length stack.now) k wide level (length row.old) }
    ensures { (i : ℕ) → level.from * wide ≤ i → i < level.to * wide → get_or row.new i 0 ≡ get_or stack.now (k * plane + i) 0 }
{
    let from = words(wide, level.from);
    let count = words(wide, level.to) - from;
    copy_words(stack, cell(plane, k, from), row, from, count);
}

// Relation j leads to equal leaves on the last level, by choice c of the image's word.
fn plane_leads(sides: &Sides, stack: &[u32], plane: u16, j: u16, c: u8, level: Level) -> bool
    requires { LeafStageOn sides.now plane level × (c < choices_most) × (j * plane + plane ≤ length stack.now) }
    ensures { (word : List ℕ) (at : ℕ) → get_or word at 0 ≡ c → result ≡ sought_on sides.now word at 0 (plane_of plane stack.now j) level }
{
    let start = cell(plane, j, 0);
    let stop = cell(plane, j, plane as usize);
    fit_any(sides, &stack[start..stop], c, level)
}

// One of the first p relations leads to equal leaves on the last level, by choice c of the image's word.
pub fn leads(sides: &Sides, stack: &[u32], plane: u16, p: u16, c: u8, level: Level) -> bool
    requires { LeafStageOn sides.now plane level × (c < choices_most) × (p * plane ≤ length stack.now) }
    ensures { (word : List ℕ) (at : ℕ) → get_or word at 0 ≡ c → result ≡ found_on sides.now word at 0 plane stack.now p level }
{
    for j in 0..p {
        if plane_leads(sides, stack, plane, j, c, level) {
            return true;
        }
    }
    false
}
