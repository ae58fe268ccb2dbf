// Document 01, "Stored form": LV and TR, and what LF begins with, one record at the front of the slice that is given. The tail is lent on for each
// field, `&mut out[at..]`, so none can reach what an earlier one wrote.
#![tactic(auto)]

ghost use Rattle.std.specs.Prelude.{◌≡◌, ◌+◌, ◌≤◌, length};
ghost use Rattle.stored.specs.Form.{lv_size, tr_size};
ghost use Rattle.stored.specs.Pack.{lv_bytes, tr_bytes};
ghost use Rattle.tables.specs.Table.{tr_row};
ghost use Rattle.putting.specs.Front.{at_front};
ghost use Rattle.recording.specs.Record.{start_bytes, HasRow};

use putting::{put_mark, put_u16, put_u32};
use tables::{ROW_WIDTH, Table};

// "n+1 records" of LV.
pub fn levels_of(n: u8) -> usize
    ensures { result ≡ n + 1 }
{
    usize::from(n) + 1
}

// LV: "states on this level".
pub fn put_lv(out: &mut [u8], count: u16)
    requires { lv_size ≤ length out.old }
    ensures { out.new ≡ at_front (lv_bytes count) out.old }
{
    put_mark(out, b'L', b'V');
    put_u16(&mut out[2..], count);
}

// What TR and LF begin with: the mark, "state (2), mask (4)".
pub fn put_start(out: &mut [u8], first: u8, second: u8, state: u16, mask: u32)
    requires { 8 ≤ length out.old }
    ensures { out.new ≡ at_front (start_bytes first second state mask) out.old }
{
    put_mark(out, first, second);
    put_u16(&mut out[2..], state);
    put_u32(&mut out[4..], mask);
}

// The TR record of row i: after its start "left (2), right (2)".
pub fn put_tr_row(out: &mut [u8], table: &Table, i: usize)
    requires { (tr_size ≤ length out.old) × HasRow table.now.rows.now table.now.masks.now i }
    ensures { out.new ≡ at_front (tr_bytes (tr_row table.now.rows.now table.now.masks.now i)) out.old }
{
    let at = i * ROW_WIDTH;
    put_start(out, b'T', b'R', table.rows[at], table.masks[i]);
    put_u16(&mut out[8..], table.rows[at + 1]);
    put_u16(&mut out[10..], table.rows[at + 2]);
}
