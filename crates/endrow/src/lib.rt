// Document 01, "What each gate builds", at the leaves, record by record: one LF record more behind those written, and what its amplitude is, from the
// leaves of the table that is read. Leaves over the most that may be end the walk; a coefficient out of its range does not, since refusal 14 comes
// before 16.
#![tactic(auto)]

ghost use Rattle.std.specs.Prelude.{◌≡◌, [], ◌∷◌, ◌+◌, ◌*◌, ◌≤◌, length, Some};
ghost use Rattle.amplitude.specs.Amp.{Amp, ω^};
ghost use Rattle.amplitude.specs.Leaf.{leaf};
ghost use Rattle.automata.specs.Sets.{rec};
ghost use Rattle.leafrows.specs.Row.{row_set};
ghost use Rattle.leafrows.specs.Value.{amp_is, InRange, Tested};
ghost use Rattle.roles.specs.Kept.{side_is};
ghost use Rattle.endrow.specs.Ended.{LentIn, EndedIn};
ghost use Rattle.endrow.specs.Leaf.{leaf_amp, pair_amp, Readable};

use leafrows::{Amplitude, amplitude_at, difference, store, sum, turned};
use records::Tr;
use roles::Side;
use tables::{ROW_WIDTH, Table, put_row};

// How many LF rows are written, and whether every coefficient so far is in its range.
#[derive(Clone, Copy)]
pub struct Ending {
    pub rows: u16,
    pub fits: bool,
}

// Row j becomes the amplitude that was tested, where it is in range.
fn store_tested(coefs: &mut [i32], j: usize, x: Option<Amplitude>)
    requires { j * 4 + 4 ≤ length coefs.old }
    ensures { (s : Amplitude) → x ≡ Some s → coefs.new ≡ row_set coefs.old j (amp_is s) }
{
    if let Some(sum) = x {
        store(coefs, j, sum);
    }
}

// The leaves under construction: the rest of the lent table, what is written there, and the most that may be.
#[derive(Drop)]
pub struct NewLeaves<'a> {
    pub rows: &'a mut [u16],
    pub masks: &'a mut [u32],
    pub coefs: &'a mut [i32],
    pub done: Ending,
    pub most: u16,
}

impl NewLeaves<'_> {
    // One record more, with the amplitude that was tested; None where all that may be are written.
    pub fn put(&mut self, state: u16, mask: u32, k: u16, x: Option<Amplitude>) -> Option<()>
        requires { LentIn self.old }
        ensures { (y : Amp) → Tested y x → EndedIn self.old (rec state mask (leaf k y) ∷ []) self.new result }
    {
        let w = self.done.rows;
        if w == self.most {
            return None;
        }
        let row = Tr {
            state,
            mask,
            left: w,
            right: k,
        };
        put_row(self.rows, self.masks, w as usize, row);
        store_tested(self.coefs, w as usize, x);
        let fits = self.done.fits & x.is_some();
        self.done = Ending { rows: w + 1, fits };
        Some(())
    }
}

// The amplitude that row i names.
fn leaf_at(old: &Table, i: u16) -> Amplitude
    requires { Readable old.now.rows.now old.now.coefs.now i }
    ensures { (amp_is result ≡ leaf_amp old.now.rows.now old.now.coefs.now i) × InRange result }
{
    let at = i as usize * ROW_WIDTH + 1;
    amplitude_at(old.coefs, old.rows[at] as usize)
}

// The same times ω^shift: it is in range too.
pub fn turned_leaf(old: &Table, i: u16, shift: u8) -> Option<Amplitude>
    requires { Readable old.now.rows.now old.now.coefs.now i }
    ensures { Tested (ω^ shift (leaf_amp old.now.rows.now old.now.coefs.now i)) result }
{
    Some(turned(leaf_at(old, i), shift))
}

// "Leaves A, B give A+B under L, A−B under R."
pub fn joined_leaves(old: &Table, i: u16, j: u16, side: Side) -> Option<Amplitude>
    requires { Readable old.now.rows.now old.now.coefs.now i × Readable old.now.rows.now old.now.coefs.now j }
    ensures { Tested (pair_amp (side_is side) (leaf_amp old.now.rows.now old.now.coefs.now i) (leaf_amp old.now.rows.now old.now.coefs.now j)) result }
{
    let x = leaf_at(old, i);
    let y = leaf_at(old, j);
    match side {
        Side::L => sum(x, y),
        Side::R => difference(x, y),
    }
}

// The k of a pair's leaves: "k grows by one".
pub fn grown(k: u8) -> u16
    ensures { result ≡ k + 1 }
{
    k as u16 + 1
}
