// Document 01, rules 8 and 9: what is asked of one TR record and of one LF record of a set file. Each function asks that the LV records and
// the record itself are there, and looks at no mark.
#![tactic(auto)]

ghost use Rattle.std.specs.Prelude.{◌≡◌, ◌+◌, ◌≤◌, length, unwrap_or};
ghost use Rattle.amplitude.specs.Amp.{in_range, in_range_a};
ghost use Rattle.stored.specs.Form.{form_of, set_of, tr_size, lf_size, tr_at, lf_at};
ghost use Rattle.stored.specs.Rules.{tr_fault, lf_ok};
ghost use Rattle.records.specs.Read.{amp_of};
ghost use Rattle.levels.specs.Levelled.{Levelled};
ghost use Rattle.faults.specs.Fault.{fault_of, reason_of};

use levels::level_of;
use records::{Lf, lf_at, tr_at};
use refusals::Reason;

// The first thing wrong with a TR record, from the levels of its state and of its children, where they are on one.
fn fault_of(
    n: u8,
    own: Option<u16>,
    left: Option<u16>,
    right: Option<u16>,
    mask: u32,
) -> Option<Reason>
    ensures { result ≡ reason_of (fault_of n (unwrap_or own (n + 2)) (unwrap_or left (n + 2)) (unwrap_or right (n + 2)) mask) }
{
    let next = match own {
        Some(level) if level <= u16::from(n) => Some(level + 1),
        _ => return Some(Reason::State),
    };
    if left != next {
        return Some(Reason::LeftChild);
    }
    if right != next {
        return Some(Reason::RightChild);
    }
    if mask == 0 {
        return Some(Reason::EmptyMask);
    }
    None
}

// Rules 81 to 84 of the TR record at a place: which of them it breaks first, if any.
pub fn tr_fault(s: &[u8], n: u8, at: usize) -> Option<Reason>
    requires { Levelled s.now n × (at + tr_size ≤ length s.now) }
    ensures { result ≡ reason_of (tr_fault (set_of s.now) (tr_at s.now at)) }
{
    let t = tr_at(s, at);
    let own = level_of(s, n, t.state);
    let left = level_of(s, n, t.left);
    let right = level_of(s, n, t.right);
    fault_of(n, own, left, right, t.mask)
}

// One coefficient is in its range, both ends among it.
fn coef_ok(z: i32) -> bool
    ensures { result ≡ in_range z }
{
    (-1073741824 <= z) & (z <= 1073741824)
}

// All four are.
fn amp_ok(l: Lf) -> bool
    ensures { result ≡ in_range_a (amp_of l) }
{
    coef_ok(l.a) & (coef_ok(l.b) & (coef_ok(l.c) & coef_ok(l.d)))
}

// Rule 9 of the LF record at a place.
pub fn lf_ok(s: &[u8], n: u8, at: usize) -> bool
    requires { Levelled s.now n × (at + lf_size ≤ length s.now) }
    ensures { result ≡ lf_ok (set_of s.now) (lf_at (form_of s.now).k s.now at) }
{
    let l = lf_at(s, at);
    let own = level_of(s, n, l.state);
    let range = amp_ok(l);
    (own == Some(u16::from(n) + 1)) & ((l.mask != 0) & range)
}
