// Document 01, "Stored form" and replies 1 to 10, and document 02, request 2: the set file's public job. It takes any slice of bytes, and answers the
// header of the set that the bytes hold, or the refusal by the first rule that is broken, with the record that breaks it. The bounds on the counts
// are the caller's.
#![tactic(auto)]

ghost use Rattle.std.specs.Prelude.{◌≡◌, cond, [], ℕ, ◌+◌, ◌*◌, ◌≤◌, ◌<◌, length, IfOk, IfSome};
ghost use Rattle.automata.specs.Sets.{QSet};
ghost use Rattle.stored.specs.Refusal.{good, need, refusal};
ghost use Rattle.stored.specs.Fields.{mark_at, records_from};
ghost use Rattle.stored.specs.Form.{form_of, set_of, hd_size, lv_size, tr_size, lf_size, trs_at, lfs_at, file_size, lf_at};
ghost use Rattle.stored.specs.Rules.{ranges_ok, counts_ok, lf_ok, first_clash, of_tr, of_lf, record_no};
ghost use Rattle.stored.specs.Judge.{judge_set};
ghost use Rattle.refusals.specs.Refused.{number_of, judged_at, seen};
ghost use Rattle.records.specs.Read.{bare, key_read};
ghost use Rattle.levels.specs.Levelled.{Levelled};
ghost use Rattle.setfile.specs.Answer.{bounds_of, form_in, form_read, Whole};
ghost use Rattle.setfile.specs.Judged.{fault_from, clash_from, header_judged, marks_judged, inner_judged, leaves_judged, order_judged};

use faults::{lf_ok, tr_fault};
use fields::{mark_at, u16_at};
use levels::levels_ok;
use order::first_clash;
use records::{HD_SIZE, LF_SIZE, LV_SIZE, TR_SIZE};
use refusals::{Fault, Reason};
use scans::{Records, first_bad};

// "n qubits, 1 to 20".
pub const N_MOST: u8 = 20;

// "One k, 0 to 64".
pub const K_MOST: u8 = 64;

// What HD says: n, k and the three counts.
#[derive(Clone, Copy, PartialEq, Eq)]
pub struct Form {
    pub n: u8,
    pub k: u8,
    pub states: u16,
    pub inner: u16,
    pub leaves: u16,
}

impl Form {
    // HD's numbers. The mark, the version and the zero byte are looked at by the rules.
    pub fn read(s: &[u8]) -> Form
        requires { hd_size ≤ length s.now }
        ensures { result ≡ form_read s.now }
    {
        Form {
            n: s[3],
            k: s[4],
            states: u16_at(s, 6),
            inner: u16_at(s, 8),
            leaves: u16_at(s, 10),
        }
    }

    // The LV records, whose first is record 1 of the file.
    fn lvs(self) -> Records
        ensures { result ≡ record { at = hd_size; size = lv_size; count = self.n + 1 } }
    {
        Records {
            at: HD_SIZE,
            size: LV_SIZE,
            count: usize::from(self.n) + 1,
        }
    }

    // The TR records.
    fn trs(self) -> Records
        ensures { result ≡ record { at = trs_at (form_in self); size = tr_size; count = self.inner } }
    {
        Records {
            at: self.trs_at(),
            size: TR_SIZE,
            count: usize::from(self.inner),
        }
    }

    // The LF records.
    fn lfs(self) -> Records
        ensures { result ≡ record { at = lfs_at (form_in self); size = lf_size; count = self.leaves } }
    {
        Records {
            at: self.lfs_at(),
            size: LF_SIZE,
            count: usize::from(self.leaves),
        }
    }

    // Where the TR records begin.
    pub fn trs_at(self) -> usize
        ensures { result ≡ trs_at (form_in self) }
    {
        HD_SIZE + LV_SIZE * (usize::from(self.n) + 1)
    }

    // Where the LF records begin.
    pub fn lfs_at(self) -> usize
        ensures { result ≡ lfs_at (form_in self) }
    {
        self.trs_at() + TR_SIZE * usize::from(self.inner)
    }

    // The length that the counts give.
    pub fn file_size(self) -> usize
        ensures { result ≡ file_size (form_in self) }
    {
        self.lfs_at() + LF_SIZE * usize::from(self.leaves)
    }

    // "the record's number in the file, HD being 0": that of the first TR record, which n + 1 LV records stand before.
    fn first_tr(self) -> u32
        ensures { result ≡ record_no (form_in self) of_tr 0 }
    {
        u32::from(self.n) + 2
    }

    // That of the first LF record, which all TR records stand before.
    fn first_lf(self) -> u32
        ensures { result ≡ record_no (form_in self) of_lf 0 }
    {
        self.first_tr() + u32::from(self.inner)
    }
}

// The most that each count may be.
#[derive(Clone, Copy)]
pub struct Bounds {
    pub states: u16,
    pub inner: u16,
    pub leaves: u16,
}

// Rule 3: n and k are in their ranges, and the zero byte is zero.
fn ranges_ok(s: &[u8], form: Form) -> bool
    requires { hd_size ≤ length s.now }
    ensures { result ≡ ranges_ok s.now (form_in form) }
{
    let zero = s[5];
    (1 <= form.n) & ((form.n <= N_MOST) & ((form.k <= K_MOST) & (zero == 0)))
}

// Rule 4: no count is over its bound.
fn counts_ok(bounds: Bounds, form: Form) -> bool
    ensures { result ≡ counts_ok (bounds_of bounds) (form_in form) }
{
    (form.states <= bounds.states) & ((form.inner <= bounds.inner) & (form.leaves <= bounds.leaves))
}

// A rule that speaks of no record.
fn need(kept: bool, reason: Reason) -> Result<(), Fault>
    ensures { (source : ℕ) → judged_at source result ≡ need kept (refusal (number_of reason) source 0) (good tt) }
{
    if kept {
        return Ok(());
    }
    Err(Fault { reason, place: 0 })
}

// The fault of the first bad record of a kind, if there is one: the kind's first record has the number `first`.
fn fault_at(bad: Option<(usize, Reason)>, first: u32) -> Result<(), Fault>
    requires { IfSome bad (λ x. x.0 < 65536) × (first < 4294901760) }
    ensures { result ≡ fault_from first bad }
{
    match bad {
        None => Ok(()),
        Some((i, reason)) => Err(Fault {
            reason,
            place: first + i as u32,
        }),
    }
}

// What is wrong with the mark at a place: that it is not the two letters.
fn mark_fault(s: &[u8], at: usize, a: u8, b: u8) -> Option<Reason>
    requires { at + 2 ≤ length s.now }
    ensures { result ≡ cond (mark_at a b s.now at) None (Some Reason.Mark) }
{
    (!mark_at(s, at, a, b)).then_some(Reason::Mark)
}

// What is wrong with the LF record at a place.
fn lf_fault(s: &[u8], n: u8, at: usize) -> Option<Reason>
    requires { Levelled s.now n × (at + lf_size ≤ length s.now) }
    ensures { result ≡ cond (lf_ok (set_of s.now) (lf_at (form_of s.now).k s.now at)) None (Some Reason.Leaf) }
{
    (!lf_ok(s, n, at)).then_some(Reason::Leaf)
}

// Rules 1 to 5: the header of a file that is as long as it says. A file with no room for HD breaks rule 1, whatever else its bytes say.
fn header(s: &[u8], bounds: Bounds) -> Result<Form, Fault>
    ensures value { (source : ℕ) → judged_at source result ≡ header_judged (bounds_of bounds) source s.now }
    ensures whole { IfOk result (λ form. Whole s.now form) }
{
    if s.len() < HD_SIZE {
        return Err(Fault {
            reason: Reason::Head,
            place: 0,
        });
    }
    let form = Form::read(s);
    need(mark_at(s, 0, b'H', b'D'), Reason::Head)?;
    need(s[2] == 1, Reason::Version)?;
    need(ranges_ok(s, form), Reason::Ranges)?;
    need(counts_ok(bounds, form), Reason::Counts)?;
    need(s.len() == form.file_size(), Reason::Length)?;
    Ok(form)
}

// The first of a kind's records that clashes with an earlier one.
fn clash(s: &[u8], records: Records) -> Option<(usize, Reason)>
    requires { (8 ≤ records.size) × (records.at + records.count * records.size ≤ length s.now) }
    ensures first { result ≡ clash_from records.count (first_clash [] (records_from (λ (i : ℕ). bare (key_read s.now i)) records.at records.size records.count)) }
    ensures within { IfSome result (λ x. x.0 < records.count) }
{
    let i = first_clash(s, records)?;
    Some((i, Reason::Order))
}

// A file that is as long as its header says.
#[derive(Clone, Copy)]
struct WholeFile<'a> {
    bytes: &'a [u8],
    form: Form,
    ghost whole: { Whole bytes.now form },
}

impl WholeFile<'_> {
    // Rule 6: the first wrong mark after HD's.
    fn marks(self) -> Result<(), Fault>
        ensures { (source : ℕ) → judged_at source result ≡ marks_judged source self.entry.bytes.now }
    {
        let s = self.bytes;
        let form = self.form;
        fault_at(first_bad(form.lvs(), |at| mark_fault(s, at, b'L', b'V')), 1)?;
        fault_at(
            first_bad(form.trs(), |at| mark_fault(s, at, b'T', b'R')),
            form.first_tr(),
        )?;
        fault_at(
            first_bad(form.lfs(), |at| mark_fault(s, at, b'L', b'F')),
            form.first_lf(),
        )
    }

    // Rules 81 to 84: the first TR record at fault, and what is wrong with it.
    fn inner(self) -> Result<(), Fault>
        ensures { (source : ℕ) → judged_at source result ≡ inner_judged source self.entry.bytes.now }
    {
        let s = self.bytes;
        let form = self.form;
        let bad = first_bad(form.trs(), |at| tr_fault(s, form.n, at));
        fault_at(bad, form.first_tr())
    }

    // Rule 9: the first LF record that breaks it.
    fn leaves(self) -> Result<(), Fault>
        ensures { (source : ℕ) → judged_at source result ≡ leaves_judged source self.entry.bytes.now }
    {
        let s = self.bytes;
        let form = self.form;
        fault_at(
            first_bad(form.lfs(), |at| lf_fault(s, form.n, at)),
            form.first_lf(),
        )
    }

    // Rule 10: the first TR record that clashes with an earlier one, or else the first LF record that does.
    fn order(self) -> Result<(), Fault>
        ensures { (source : ℕ) → judged_at source result ≡ order_judged source self.entry.bytes.now }
    {
        fault_at(clash(self.bytes, self.form.trs()), self.form.first_tr())?;
        fault_at(clash(self.bytes, self.form.lfs()), self.form.first_lf())
    }
}

// The reply to a set file of any length: the header of a set that is taken, or the first rule that the file breaks with the number of the record;
// rules 1 to 5 and 7 speak of no record and have place 0. "81 to 84 stand together where 8 stood, before 9". The caller knows which of the lent files
// it is.
pub fn read_set(file: &[u8], bounds: Bounds) -> Result<Form, Fault>
    ensures { (source : ℕ) → judged_at source result ≡ seen (λ (Q : QSet). form_read file.now) (judge_set (bounds_of bounds) source file.now) }
{
    let form = header(file, bounds)?;
    let whole = WholeFile { bytes: file, form };
    whole.marks()?;
    need(levels_ok(file, form.n, form.states), Reason::Levels)?;
    whole.inner()?;
    whole.leaves()?;
    whole.order()?;
    Ok(form)
}
