// Document 01, "Stored form": little-endian numbers and marks out of a slice of bytes. Each function asks that its bytes are there.
#![tactic(auto)]

ghost use Rattle.std.specs.Prelude.{◌≡◌, ◌+◌, ◌≤◌, length};
ghost use Rattle.stored.specs.Fields.{u16_at, u32_at, signed32, i32_at, mark_at};

// The two bytes at a place, as an unsigned number.
pub fn u16_at(s: &[u8], at: usize) -> u16
    requires { at + 2 ≤ length s.now }
    ensures { result ≡ u16_at s.now at }
{
    u16::from_le_bytes([s[at], s[at + 1]])
}

// The four bytes at a place, as an unsigned number.
pub fn u32_at(s: &[u8], at: usize) -> u32
    requires { at + 4 ≤ length s.now }
    ensures { result ≡ u32_at s.now at }
{
    u32::from_le_bytes([s[at], s[at + 1], s[at + 2], s[at + 3]])
}

// The four bytes at a place, as a signed number.
pub fn i32_at(s: &[u8], at: usize) -> i32
    requires { at + 4 ≤ length s.now }
    ensures { result ≡ i32_at s.now at }
{
    i32::from_le_bytes([s[at], s[at + 1], s[at + 2], s[at + 3]])
}

// The two letters of a mark stand at a place.
pub fn mark_at(s: &[u8], at: usize, a: u8, b: u8) -> bool
    requires { at + 2 ≤ length s.now }
    ensures { result ≡ mark_at a b s.now at }
{
    (s[at] == a) & (s[at + 1] == b)
}
