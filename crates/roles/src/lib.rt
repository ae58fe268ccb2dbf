// Document 01, "What each gate builds": what a gate does at a level, and the stored keys of a record's two children. All of it by
// value.
#![tactic(auto)]

ghost use Rattle.std.specs.Prelude.{◌≡◌, ◌<◌};
ghost use Rattle.circuits.specs.Answer.{kind_is, gate_is};
ghost use Rattle.gates.specs.Key.{packed, stored, turned};
ghost use Rattle.gates.specs.Matrix.{back};
ghost use Rattle.gates.specs.Roles.{role, kind_kids, plain_kids, inside_kids, cross_kids, both_kids, pair_kids};
ghost use Rattle.stepwise.specs.Code.{tag_in, unstored};
ghost use Rattle.roles.specs.Kept.{role_from, role_is, role_alone, role_under, side_is, key_is, kids_of, shift_in, single_of, single_kids};

use circuits::{Gate, Kind};

// What happens at a level: nothing; the right child goes inside; a pair's children change partners; the kind acts on a plain state, or on a
// state inside.
#[derive(Clone, Copy)]
pub enum Role {
    Pass,
    Begin,
    Cross,
    Act(Kind),
    Within(Kind),
}

// The side of a pair: A + B or A − B.
#[derive(Clone, Copy)]
pub enum Side {
    L,
    R,
}

// The stored keys of both children.
#[derive(Clone, Copy)]
pub struct Kids {
    pub left: u64,
    pub right: u64,
}

// What a state of one old state is: that state plain, inside a control, or shifted j.
#[derive(Clone, Copy)]
pub enum Single {
    Plain,
    Inside,
    Shifted(u8),
}

impl Single {
    // What the tag of a stored key that is no pair says: plain, inside, or shifted by what is over SHIFTED. Any other number says one of these too.
    pub fn of(tag: u16) -> Single
        ensures { result ≡ single_of tag }
    {
        match tag {
            PLAIN => Single::Plain,
            INSIDE => Single::Inside,
            shifted => Single::Shifted((shifted.saturating_sub(SHIFTED) % 256) as u8),
        }
    }

    // The j of a shifted state, or 0.
    pub fn shift(self) -> u8
        ensures { result ≡ shift_in self }
    {
        match self {
            Single::Shifted(j) => j,
            _ => 0,
        }
    }
}

// A state of a gate's result, by what it is of the old set: of one old state, or of two that are a pair on a side.
#[derive(Clone, Copy)]
pub enum Key {
    One(Single, u16),
    Pair(Side, u16, u16),
}

// The tags of stored keys; shifted j has the tag SHIFTED + j. Numbers, since a stored key is one number of 64 bits in a lent row.
const PLAIN: u16 = 0;

const INSIDE: u16 = 1;

const PAIR_L: u16 = 2;

const PAIR_R: u16 = 3;

const SHIFTED: u16 = 4;

// The tag and both old numbers, each in a place of its own.
pub fn pack(tag: u16, q: u16, p: u16) -> u64
    ensures { result ≡ packed tag q p }
{
    (u64::from(tag) * 65536 + u64::from(q)) * 65536 + u64::from(p)
}

impl Key {
    // The key as it is stored.
    pub fn stored(self) -> u64
        ensures { result ≡ stored (key_is self) }
    {
        match self {
            Key::One(Single::Plain, q) => pack(PLAIN, q, 0),
            Key::One(Single::Inside, q) => pack(INSIDE, q, 0),
            Key::One(Single::Shifted(j), q) => pack(SHIFTED + u16::from(j), q, 0),
            Key::Pair(Side::L, q, p) => pack(PAIR_L, q, p),
            Key::Pair(Side::R, q, p) => pack(PAIR_R, q, p),
        }
    }

    // The key that a number stores, whose tag is one that the code makes.
    pub fn unstored(x: u64) -> Key
        requires { tag_in x < 260 }
        ensures { key_is result ≡ unstored x }
    {
        let tag = (x / 65536 / 65536) as u16;
        let q = (x / 65536 % 65536) as u16;
        let p = (x % 65536) as u16;
        match tag {
            PAIR_L => Key::Pair(Side::L, q, p),
            PAIR_R => Key::Pair(Side::R, q, p),
            single => Key::One(Single::of(single), q),
        }
    }
}

// The role of a controlled gate: a control above the target begins, one below it crosses.
fn role_controlled(c: u8, k: Kind, t: u8, level: u8) -> Role
    ensures { result ≡ role_from (role_under c (kind_is k) t level) }
{
    if c < t {
        if level == c {
            return Role::Begin;
        }
        if level == t {
            return Role::Within(k);
        }
        return Role::Pass;
    }
    if level == t {
        return Role::Act(Kind::H);
    }
    if level == c {
        return Role::Cross;
    }
    Role::Pass
}

// The role of a gate with no control.
fn role_alone(k: Kind, t: u8, level: u8) -> Role
    ensures { result ≡ role_from (role_alone (kind_is k) t level) }
{
    if level == t { Role::Act(k) } else { Role::Pass }
}

// What a gate does at a level.
pub fn role_at(g: Gate, level: u8) -> Role
    ensures { result ≡ role_from (role (gate_is g) level) }
{
    match g {
        Gate::Plain(k, t) => role_alone(k, t, level),
        Gate::Controlled(c, k, t) => role_controlled(c, k, t, level),
    }
}

// ω^−j as a power from 0 to 7.
fn backwards(j: u8) -> u8
    ensures { result ≡ back j }
{
    if j < 8 {
        return (8 - j) % 8;
    }
    0
}

// A state shifted j, or plain where j is 0.
fn turned(j: u8, q: u16) -> Key
    ensures { key_is result ≡ turned j q }
{
    if j == 0 {
        return Key::One(Single::Plain, q);
    }
    Key::One(Single::Shifted(j), q)
}

// Both children of one old state's record.
pub fn both(how: Single, l: u16, r: u16) -> Kids
    ensures { result ≡ kids_of (key_is (Key.One how l), key_is (Key.One how r)) }
{
    Kids {
        left: Key::One(how, l).stored(),
        right: Key::One(how, r).stored(),
    }
}

// "X: (r, l). Y: (r shifted 6, l shifted 2). Phase j: (l, r shifted j). H: (pair l r L, pair l r R)."
fn kind_kids(k: Kind, l: u16, r: u16) -> Kids
    ensures { result ≡ kids_of (kind_kids (kind_is k) (l, r)) }
{
    match k {
        Kind::Phase(j) => Kids {
            left: Key::One(Single::Plain, l).stored(),
            right: Key::One(Single::Shifted(j), r).stored(),
        },
        Kind::Flip(j) => Kids {
            left: turned(backwards(j), r).stored(),
            right: turned(j, l).stored(),
        },
        Kind::H => Kids {
            left: Key::Pair(Side::L, l, r).stored(),
            right: Key::Pair(Side::R, l, r).stored(),
        },
    }
}

// The children of a plain state.
pub fn plain_kids(o: Role, l: u16, r: u16) -> Kids
    ensures { result ≡ kids_of (plain_kids (role_is o) (l, r)) }
{
    match o {
        Role::Act(k) => kind_kids(k, l, r),
        Role::Begin => Kids {
            left: Key::One(Single::Plain, l).stored(),
            right: Key::One(Single::Inside, r).stored(),
        },
        _ => both(Single::Plain, l, r),
    }
}

// The children of a state inside a control.
pub fn inside_kids(o: Role, l: u16, r: u16) -> Kids
    ensures { result ≡ kids_of (inside_kids (role_is o) (l, r)) }
{
    match o {
        Role::Within(k) => kind_kids(k, l, r),
        _ => both(Single::Inside, l, r),
    }
}

// The children of a state that is no pair.
pub fn single_kids(o: Role, how: Single, l: u16, r: u16) -> Kids
    ensures { result ≡ kids_of (single_kids (role_is o) how (l, r)) }
{
    match how {
        Single::Plain => plain_kids(o, l, r),
        Single::Inside => inside_kids(o, l, r),
        Single::Shifted(_) => both(how, l, r),
    }
}

// "L gives (q0,p1), R gives (p0,q1), all plain"
fn cross_kids(s: Side, q0: u16, q1: u16, p0: u16, p1: u16) -> Kids
    ensures { result ≡ kids_of (cross_kids (side_is s) (q0, q1) (p0, p1)) }
{
    let (l, r) = match s {
        Side::L => (q0, p1),
        Side::R => (p0, q1),
    };
    both(Single::Plain, l, r)
}

// The two left children meet, and the two right ones.
fn both_kids(s: Side, q0: u16, q1: u16, p0: u16, p1: u16) -> Kids
    ensures { result ≡ kids_of (both_kids (side_is s) (q0, q1) (p0, p1)) }
{
    Kids {
        left: Key::Pair(s, q0, p0).stored(),
        right: Key::Pair(s, q1, p1).stored(),
    }
}

// The children of a pair, whose states go to q0, q1 and to p0, p1.
pub fn pair_kids(o: Role, s: Side, q0: u16, q1: u16, p0: u16, p1: u16) -> Kids
    ensures { result ≡ kids_of (pair_kids (role_is o) (side_is s) (q0, q1) (p0, p1)) }
{
    match o {
        Role::Cross => cross_kids(s, q0, q1, p0, p1),
        _ => both_kids(s, q0, q1, p0, p1),
    }
}
