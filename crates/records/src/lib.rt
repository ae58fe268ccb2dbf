// Document 01, "Stored form": a set's records by value. Each function reads one record at a place whose bytes are there, and looks at no mark.
// "Reading uses a record reader made of the lent file and the next record's place": every TR and LF record's state and choices are read through one.
#![tactic(auto)]

ghost use Rattle.std.specs.Prelude.{◌≡◌, ◌+◌, ◌≤◌, length};
ghost use Rattle.stored.specs.Form.{lv_size, tr_size, lf_size, count_at};
ghost use Rattle.records.specs.Read.{key_read, tr_read, lf_read};

use fields::{i32_at, u16_at, u32_at};

// The records' sizes in bytes, their marks included: first HD, then LV, TR and LF.
pub const HD_SIZE: usize = 12;

pub const LV_SIZE: usize = 4;

pub const TR_SIZE: usize = 12;

pub const LF_SIZE: usize = 24;

// What TR and LF records begin with: a state and its choices. The order of records goes by these two alone.
#[derive(Clone, Copy)]
pub struct Key {
    pub state: u16,
    pub mask: u32,
}

// TR: a state, its choices, its left and its right state.
#[derive(Clone, Copy)]
pub struct Tr {
    pub state: u16,
    pub mask: u32,
    pub left: u16,
    pub right: u16,
}

// LF: a state, its choices and the four coefficients.
#[derive(Clone, Copy)]
pub struct Lf {
    pub state: u16,
    pub mask: u32,
    pub a: i32,
    pub b: i32,
    pub c: i32,
    pub d: i32,
}

// The lent file, and the next record's place in it.
#[derive(Clone, Copy)]
pub struct RecordReader<'a> {
    pub file: &'a [u8],
    pub at: usize,
}

// The number of states that the LV record at a place says.
pub fn count_at(s: &[u8], at: usize) -> u16
    requires { at + lv_size ≤ length s.now }
    ensures { result ≡ count_at s.now at }
{
    u16_at(s, at + 2)
}

impl<'a> RecordReader<'a> {
    // A reader of the lent file whose next record is at a place.
    pub fn new(file: &'a [u8], at: usize) -> RecordReader<'a>
        ensures { (result.file ≡ file.entry) × (result.at ≡ at) }
    {
        RecordReader { file, at }
    }

    // The state and the choices of the next record, a TR or an LF.
    pub fn next_key(self) -> Key
        requires { self.at + 8 ≤ length self.file.now }
        ensures { result ≡ key_read self.entry.file.now self.entry.at }
    {
        let state = u16_at(self.file, self.at + 2);
        let mask = u32_at(self.file, self.at + 4);
        Key { state, mask }
    }
}

// The state and the choices of the TR or LF record at a place. Whoever calls it knows of no reader.
pub fn key_at(s: &[u8], at: usize) -> Key
    requires { at + 8 ≤ length s.now }
    ensures { result ≡ key_read s.now at }
{
    RecordReader::new(s, at).next_key()
}

// The TR record at a place.
pub fn tr_at(s: &[u8], at: usize) -> Tr
    requires { at + tr_size ≤ length s.now }
    ensures { result ≡ tr_read s.now at }
{
    let Key { state, mask } = key_at(s, at);
    let left = u16_at(s, at + 8);
    let right = u16_at(s, at + 10);
    Tr {
        state,
        mask,
        left,
        right,
    }
}

// The LF record at a place.
pub fn lf_at(s: &[u8], at: usize) -> Lf
    requires { at + lf_size ≤ length s.now }
    ensures { result ≡ lf_read s.now at }
{
    let Key { state, mask } = key_at(s, at);
    let a = i32_at(s, at + 8);
    let b = i32_at(s, at + 12);
    let c = i32_at(s, at + 16);
    let d = i32_at(s, at + 20);
    Lf {
        state,
        mask,
        a,
        b,
        c,
        d,
    }
}
