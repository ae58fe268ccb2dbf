// A set unpacked into lent slices, so that no lookup scans a file: see specs/Table.antt for what the slices hold. `unpack` asks for a file that
// the ten rules passed and for slices that are long enough for its counts. It looks at no mark and at no rule again.
#![tactic(auto)]

ghost use Rattle.std.specs.Prelude.{◌≡◌, ℕ, ◌+◌, ◌*◌, ◌≤◌, ◌<◌, length};
ghost use Rattle.stored.specs.Form.{lv_size, tr_size, lf_size, set_of};
ghost use Rattle.records.specs.Read.{tr_of};
ghost use Rattle.tables.specs.Table.{row_width, leaf_width, amp_from, row_set};
ghost use Rattle.tables.specs.States.{state_row, Rising};
ghost use Rattle.tables.specs.Unpack.{Put, Room, Filled, Tabled, Leaved, Counted, Begun};
ghost use Rattle.tables.specs.Ready.{Ready};
ghost use Rattle.tables.specs.Slices.{table_is, lent_is, RoomyOn, UnpackedOn, SameLengths, SameLent};

use records::{HD_SIZE, LF_SIZE, LV_SIZE, TR_SIZE, Tr, count_at, key_at, lf_at, tr_at};
use setfile::Form;

// A row's places in `rows`, and a leaf's in `coefs`.
pub const ROW_WIDTH: usize = 3;

pub const LEAF_WIDTH: usize = 4;

// A table that is lent to be read. For what the slices hold see specs/Table.antt.
#[derive(Clone, Copy)]
pub struct Table<'a> {
    pub rows: &'a [u16],
    pub masks: &'a [u32],
    pub coefs: &'a [i32],
    pub counts: &'a [u16],
    pub first: &'a [u16],
}

// The same, lent to be written.
#[derive(Drop)]
pub struct TableMut<'a> {
    pub rows: &'a mut [u16],
    pub masks: &'a mut [u32],
    pub coefs: &'a mut [i32],
    pub counts: &'a mut [u16],
    pub first: &'a mut [u16],
}

impl TableMut<'_> {
    // The table to read.
    pub fn view(&self) -> Table<'_>
        ensures { table_is result ≡ lent_is self.now }
    {
        Table {
            rows: self.rows,
            masks: self.masks,
            coefs: self.coefs,
            counts: self.counts,
            first: self.first,
        }
    }
}

// Row i is written, and no other row changes.
pub fn put_row(rows: &mut [u16], masks: &mut [u32], i: usize, row: Tr)
    requires { ((i + 1) * row_width ≤ length rows.old) × (i + 1 ≤ length masks.old) }
    ensures { Put rows.old masks.old rows.new masks.new i (tr_of row) }
{
    let at = i * ROW_WIDTH;
    rows[at] = row.state;
    rows[at + 1] = row.left;
    rows[at + 2] = row.right;
    masks[i] = row.mask;
}

// `count` rows from row `from` on are filled, each with the record that `read` gives for its number among them.
fn fill_rows<F: Fn(u16) -> Tr>(from: u16, count: u16, rows: &mut [u16], masks: &mut [u32], read: F)
    requires room { Room rows.old masks.old (from + count) }
    requires read_pre { (i : ℕ) → i < count → F.pre read i }
    ensures { Filled (F.post read) from count rows.old masks.old rows.new masks.new }
{
    for i in 0..count {
        put_row(rows, masks, usize::from(from) + usize::from(i), read(i));
    }
}

// All rows of a set with this form: those of the TR records from one place on, then those of the LF records from another. A leaf's row names its row
// of coefficients and the set's k.
fn fill_table(file: &[u8], form: Form, trs: usize, lfs: usize, rows: &mut [u16], masks: &mut [u32])
    requires inner { trs + form.inner * tr_size ≤ length file.now }
    requires leaves { lfs + form.leaves * lf_size ≤ length file.now }
    requires room { Room rows.old masks.old (form.inner + form.leaves) }
    ensures { Tabled file.now trs lfs form.k form.inner form.leaves rows.new masks.new }
{
    fill_rows(
        0,
        form.inner,
        rows,
        masks,
        |i| tr_at(file, trs + usize::from(i) * TR_SIZE),
    );
    fill_rows(form.inner, form.leaves, rows, masks, |i| {
        let key = key_at(file, lfs + usize::from(i) * LF_SIZE);
        Tr {
            state: key.state,
            mask: key.mask,
            left: i,
            right: u16::from(form.k),
        }
    });
}

// Row i of the coefficients is written: four numbers. No other number changes.
pub fn put_leaf(coefs: &mut [i32], i: usize, numbers: [i32; 4])
    requires { (i + 1) * leaf_width ≤ length coefs.old }
    ensures { coefs.new ≡ row_set coefs.old i (amp_from numbers 0) }
{
    let at = i * LEAF_WIDTH;
    coefs[at] = numbers[0];
    coefs[at + 1] = numbers[1];
    coefs[at + 2] = numbers[2];
    coefs[at + 3] = numbers[3];
}

// The coefficients of `count` LF records that stand from a place on, a row for each.
fn fill_coefs(file: &[u8], start: usize, count: u16, coefs: &mut [i32])
    requires { (start + count * lf_size ≤ length file.now) × (count * leaf_width ≤ length coefs.old) }
    ensures { Leaved file.now start count coefs.new }
{
    for i in 0..usize::from(count) {
        let leaf = lf_at(file, start + i * LF_SIZE);
        put_leaf(coefs, i, [leaf.a, leaf.b, leaf.c, leaf.d]);
    }
}

// The states on each of `count` levels, whose LV records stand from a place on.
fn fill_counts(file: &[u8], start: usize, count: usize, counts: &mut [u16])
    requires { (start + count * lv_size ≤ length file.now) × (count ≤ length counts.old) }
    ensures { Counted file.now start count counts.new }
{
    for i in 0..count {
        counts[i] = count_at(file, start + i * LV_SIZE);
    }
}

// The row where each state's records begin, and one past the last. States in rows do not fall, so one pass over rows and states finds them all.
pub fn fill_first(rows: &[u16], total: u16, states: u16, first: &mut [u16])
    requires { (total * row_width ≤ length rows.now) × (states + 1 ≤ length first.old) × Rising (state_row rows.now) total }
    ensures { Begun rows.now total (states + 1) first.new }
{
    let mut i: u16 = 0;
    for s in 0..usize::from(states) + 1 {
        // A while: rows are passed by their states and not by a count, so that one pass finds the beginnings of all.
        while i < total && usize::from(rows[usize::from(i) * ROW_WIDTH]) < s {
            i += 1;
        }
        first[s] = i;
    }
}

// A set file that the ten rules passed, unpacked: the table holds its set, and leaf row i names row i of the coefficients. What it held before,
// and what stands behind the file's records in it, does not matter.
pub fn unpack(file: &[u8], form: Form, table: &mut TableMut)
    requires ready { Ready file.now form.n form.k form.states form.inner form.leaves }
    requires roomy { RoomyOn (lent_is table.old) form.n form.states form.inner form.leaves }
    ensures unpacked { UnpackedOn (lent_is table.new) (set_of file.now) }
    ensures long { SameLengths (lent_is table.old) (lent_is table.new) }
    ensures same_slices { SameLent table.old table.new }
{
    let levels = usize::from(form.n) + 1;
    let trs = HD_SIZE + LV_SIZE * levels;
    let lfs = trs + TR_SIZE * usize::from(form.inner);
    fill_table(file, form, trs, lfs, table.rows, table.masks);
    fill_coefs(file, lfs, form.leaves, table.coefs);
    fill_counts(file, HD_SIZE, levels, table.counts);
    let rows = &mut *table.rows;
    let first = &mut *table.first;
    fill_first(rows, form.inner + form.leaves, form.states, first);
}
