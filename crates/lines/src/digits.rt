// Numbers in decimal digits, without leading zeros, at the front of a slice that the caller lends; what stands after them is as it was. By hand: what
// std says of `write!` into a slice holds only where it answers Ok, and no clause says that it does where there is room.
ghost use Rattle.std.specs.Prelude.{◌≡◌, ◌+◌, ◌≤◌, ◌<◌, length};
ghost use Rattle.packing.specs.Written.{at_front};
ghost use Rattle.lines.specs.Numeral.{numeral};
ghost use Rattle.lines.specs.Put.{Put};

// The digit of a number below ten.
fn digit(d: u32) -> u8
    requires { d < 10 }
    ensures { result ≡ 48 + d }
{
    b'0' + d as u8
}

// How many digits a number has.
fn digits_in(n: u32) -> usize
    ensures { result ≡ length (numeral n) }
{
    let mut left = n;
    let mut count = 1;
    while 10 <= left {
        left = left / 10;
        count += 1;
    }
    count
}

// The digits of a number, of which there are `count`: the last one first.
fn put_digits(out: &mut [u8], n: u32, count: usize)
    requires { (count ≡ length (numeral n)) × (count ≤ length out.old) }
    ensures { out.new ≡ at_front (numeral n) out.old }
{
    let mut left = n;
    let mut at = count;
    while 10 <= left {
        at -= 1;
        out[at] = digit(left % 10);
        left = left / 10;
    }
    out[0] = digit(left);
}

// A number in decimal digits; how many there are comes back.
pub fn put_decimal(out: &mut [u8], n: u32) -> usize
    requires { 10 ≤ length out.old }
    ensures { Put (numeral n) 10 out.old out.new result }
{
    let count = digits_in(n);
    put_digits(out, n, count);
    count
}
