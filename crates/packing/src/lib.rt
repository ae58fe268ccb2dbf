// A table packed: document 01, "Stored form". The records of a set unpacked into slices become the bytes of a file, at the front of an
// output that the caller lends. Each function writes at the front of the slice that it is given and lends the unwritten tail on,
// `&mut out[at..]`, for the part that follows: none can reach what an earlier one wrote, and the bytes past the file stay as they were.
// The coefficients are taken as they stand: their range is the table's business, and any 32-bit number is packed.
#![tactic(auto)]

ghost use Rattle.std.specs.Prelude.{◌≡◌, [], ◌∷◌, ◌+◌, ◌*◌, ◌≤◌, ◌<◌, length, take};
ghost use Rattle.automata.specs.Sets.{sum};
ghost use Rattle.automata.specs.Members.{flat};
ghost use Rattle.stored.specs.Form.{file_size, hd_size, lv_size, tr_size, lf_size};
ghost use Rattle.stored.specs.Pack.{lv_bytes, tr_bytes, amp_bytes, lf_bytes, file_of};
ghost use Rattle.putting.specs.Front.{at_front};
ghost use Rattle.recording.specs.Record.{HasRow};
ghost use Rattle.packing.specs.Written.{head_bytes, coef_bytes, amp_from, HasCoefs, HasRows};
ghost use Rattle.tables.specs.Table.{row_width, leaf_width, lf_row, tr_rows, lf_rows};
ghost use Rattle.tables.specs.Slices.{table_is, set_on};
ghost use Rattle.setfile.specs.Answer.{form_in};

use putting::{put_front, put_i32, put_u16};
use recording::{levels_of, put_lv, put_start, put_tr_row};
use records::{HD_SIZE, LF_SIZE, LV_SIZE, TR_SIZE};
use setfile::Form;
use tables::{LEAF_WIDTH, ROW_WIDTH, Table};

// "version 1"
const VERSION: u8 = 1;

// The coefficient at a place.
fn put_coef(out: &mut [u8], coefs: &[i32], at: usize)
    requires { (4 ≤ length out.old) × (at < length coefs.now) }
    ensures { out.new ≡ at_front (coef_bytes coefs.now at) out.old }
{
    put_i32(out, coefs[at]);
}

// "a, b, c, d (4 each)": the row of coefficients that begins at a place.
fn put_amp(out: &mut [u8], coefs: &[i32], at: usize)
    requires { (16 ≤ length out.old) × (at + leaf_width ≤ length coefs.now) }
    ensures { out.new ≡ at_front (amp_bytes (amp_from coefs.now at)) out.old }
{
    put_coef(out, coefs, at);
    put_coef(&mut out[4..], coefs, at + 1);
    put_coef(&mut out[8..], coefs, at + 2);
    put_coef(&mut out[12..], coefs, at + 3);
}

// The LF record of row i: after its start the coefficients of the leaf that the row names.
fn put_lf_row(out: &mut [u8], table: &Table, i: usize)
    requires { (lf_size ≤ length out.old) × HasRow table.now.rows.now table.now.masks.now i × HasCoefs table.now.rows.now table.now.coefs.now i }
    ensures { out.new ≡ at_front (lf_bytes (lf_row table.now.rows.now table.now.masks.now table.now.coefs.now i)) out.old }
{
    let at = i * ROW_WIDTH;
    let leaf = usize::from(table.rows[at + 1]);
    put_start(out, b'L', b'F', table.rows[at], table.masks[i]);
    put_amp(&mut out[8..], table.coefs, leaf * LEAF_WIDTH);
}

// All LV records, one for each of the levels. One function for the three kinds would take a closure that writes into a lent tail, with a ghost value for
// the bytes of a record and two clauses on the closure: longer than the three loops of a line each.
fn put_levels(out: &mut [u8], counts: &[u16], levels: usize)
    requires { (levels * lv_size ≤ length out.old) × (levels ≤ length counts.now) }
    ensures { out.new ≡ at_front (flat lv_bytes (take levels counts.now)) out.old }
{
    for i in 0..levels {
        put_lv(&mut out[i * LV_SIZE..], counts[i]);
    }
}

// All TR records.
fn put_trs(out: &mut [u8], table: &Table, inner: usize)
    requires { (inner * tr_size ≤ length out.old) × (inner * row_width ≤ length table.now.rows.now) × (inner ≤ length table.now.masks.now) }
    ensures { out.new ≡ at_front (flat tr_bytes (tr_rows table.now.rows.now table.now.masks.now 0 inner)) out.old }
{
    for i in 0..inner {
        put_tr_row(&mut out[i * TR_SIZE..], table, i);
    }
}

// All LF records: their rows stand after those of the TR records.
fn put_lfs(out: &mut [u8], table: &Table, inner: usize, leaves: usize)
    requires { (leaves * lf_size ≤ length out.old) × HasRows table.now.rows.now table.now.masks.now table.now.coefs.now inner leaves }
    ensures { out.new ≡ at_front (flat lf_bytes (lf_rows table.now.rows.now table.now.masks.now table.now.coefs.now inner leaves)) out.old }
{
    for i in 0..leaves {
        put_lf_row(&mut out[i * LF_SIZE..], table, inner + i);
    }
}

// HD's first six bytes: the mark, then "version 1, n, k, zero (one byte each)".
fn put_version(out: &mut [u8], n: u8, k: u8)
    requires { 6 ≤ length out.old }
    ensures { out.new ≡ at_front (72 ∷ 68 ∷ 1 ∷ n ∷ k ∷ 0 ∷ []) out.old }
{
    put_front(out, &[b'H', b'D', VERSION, n, k, 0]);
}

// HD: after those six "states, inner, leaves (two bytes each)".
fn put_hd(out: &mut [u8], form: Form)
    requires { hd_size ≤ length out.old }
    ensures { out.new ≡ at_front (head_bytes form.n form.k form.states form.inner form.leaves) out.old }
{
    put_version(out, form.n, form.k);
    put_u16(&mut out[6..], form.states);
    put_u16(&mut out[8..], form.inner);
    put_u16(&mut out[10..], form.leaves);
}

// The file of the set that a table holds, at the front of `out`; its length comes back, and further bytes are as they were.
pub fn pack(form: Form, table: &Table, out: &mut [u8]) -> usize
    requires n_in_bounds { (form.n + 1 ≤ length table.now.counts.now) × (form.states ≡ sum (take (form.n + 1) table.now.counts.now)) }
    requires has_rows { HasRows table.now.rows.now table.now.masks.now table.now.coefs.now form.inner form.leaves }
    requires leaves_in_bounds { file_size (form_in form) ≤ length out.old }
    ensures value { result ≡ length (file_of (set_on form (table_is table.now))) }
    ensures out_after { out.new ≡ at_front (file_of (set_on form (table_is table.now))) out.old }
{
    let levels = levels_of(form.n);
    let inner = usize::from(form.inner);
    let leaves = usize::from(form.leaves);
    let trs_at = HD_SIZE + levels * LV_SIZE;
    let lfs_at = trs_at + inner * TR_SIZE;
    put_hd(out, form);
    put_levels(&mut out[HD_SIZE..], table.counts, levels);
    put_trs(&mut out[trs_at..], table, inner);
    put_lfs(&mut out[lfs_at..], table, inner, leaves);
    lfs_at + leaves * LF_SIZE
}
