// Document 01, "Stored form", its numbers: "Little-endian", "signed numbers in two's complement". Each function writes at the front of the slice that
// it is given, and the bytes past what it writes stay as they were, since it lends `copy_from_slice` the number's own places.
#![tactic(auto)]

ghost use Rattle.std.specs.Prelude.{◌≡◌, [], ◌∷◌, ◌≤◌, length};
ghost use Rattle.stored.specs.Fields.{bytes16, bytes32, unsigned32};
ghost use Rattle.putting.specs.Front.{at_front};

// Bytes at the front.
pub fn put_front(out: &mut [u8], bytes: &[u8])
    requires { length bytes.now ≤ length out.old }
    ensures { out.new ≡ at_front bytes.now out.old }
{
    out[..bytes.len()].copy_from_slice(bytes);
}

// A number's two bytes, the low one first.
pub fn put_u16(out: &mut [u8], x: u16)
    requires { 2 ≤ length out.old }
    ensures { out.new ≡ at_front (bytes16 x) out.old }
{
    put_front(out, &x.to_le_bytes());
}

// A number's four bytes, the lowest first.
pub fn put_u32(out: &mut [u8], x: u32)
    requires { 4 ≤ length out.old }
    ensures { out.new ≡ at_front (bytes32 x) out.old }
{
    let bytes = x.to_le_bytes();
    put_front(out, &bytes);
}

// A signed number's four bytes: "signed numbers in two's complement".
pub fn put_i32(out: &mut [u8], z: i32)
    requires { 4 ≤ length out.old }
    ensures { out.new ≡ at_front (bytes32 (unsigned32 z)) out.old }
{
    put_u32(out, z.cast_unsigned());
}

// A record's mark: two letters.
pub fn put_mark(out: &mut [u8], first: u8, second: u8)
    requires { 2 ≤ length out.old }
    ensures { out.new ≡ at_front (first ∷ second ∷ []) out.old }
{
    put_front(out, &[first, second]);
}
