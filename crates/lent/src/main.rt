// Runs the job *Check* in work buffers that are lent by a caller: one short by one cell, all of just their named sizes, all longer. It prints the reply's
// kind and number, and for each buffer how many cells from the front are zero and how many after them are as they were: document 01, "After
// refusal 17 they are unchanged. After any other reply their named size is zero, further bytes unchanged."
#![tactic(auto)]

ghost use Rattle.std.specs.Prelude.{◌≤◌, length};

use buffers::{HINTS, MARKS};
use checkjob::check;
use replies::{Fields, Reply};
use std::io;
use terms::Terms;

// Three cells more than each named size.
const MORE_MARKS: usize = 16387;

const MORE_HINTS: usize = 32771;

// The set of |0> on one qubit: n = 1, k = 0, TR 0 {0} to (1, 2), leaves 1: (1, 0, 0, 0), 2: zero.
const SET: [u8; 80] = [
    72, 68, 1, 1, 0, 0, 3, 0, 1, 0, 2, 0, 76, 86, 1, 0, 76, 86, 2, 0, 84, 82, 0, 0, 1, 0, 0, 0, 1,
    0, 2, 0, 76, 70, 1, 0, 1, 0, 0, 0, 1, 0, 0, 0, 0, 0, 0, 0, 0, 0, 0, 0, 0, 0, 0, 0, 76, 70, 2,
    0, 1, 0, 0, 0, 0, 0, 0, 0, 0, 0, 0, 0, 0, 0, 0, 0, 0, 0, 0, 0,
];

// X on qubit 1.
const FLIP: [u8; 6] = [71, 84, 1, 1, 0, 0];

// How many cells of each buffer are lent.
#[derive(Clone, Copy)]
struct Sizes {
    met: usize,
    stack: usize,
    kept: usize,
    hints: usize,
}

// A number's last digit.
fn put_digit(rt: &impl Print, n: u8) -> io::Result<()> {
    print!(rt; "{}", n % 10)
}

// A space and the last five digits of a number.
fn put_number(rt: &impl Print, n: usize) -> io::Result<()> {
    print!(rt; " {:05}", n % 100000)
}

// How many cells from the front have this value.
fn front<T: PartialEq>(buf: &[T], value: &T) -> usize
    ensures { result ≤ length buf.now }
{
    buf.iter().position(|x| x != value).unwrap_or(buf.len())
}

// Zero cells, and then cells as they were.
fn tell<T: PartialEq>(rt: &impl Print, buf: &[T], zero: &T, old: &T) -> io::Result<()> {
    let zeros = front(buf, zero);
    put_number(rt, zeros)?;
    put_number(rt, front(&buf[zeros..], old))
}

// One check of a start set, a circuit and an end set, with so many cells lent of each buffer.
fn lend(
    start: &[u8],
    circuit: &[u8],
    end: &[u8],
    sizes: Sizes,
    met: &mut [u32],
    stack: &mut [u32],
    kept: &mut [u32],
    hints: &mut [u8],
) -> Reply
    requires { (sizes.met ≤ length met.old) × (sizes.stack ≤ length stack.old) × (sizes.kept ≤ length kept.old) × (sizes.hints ≤ length hints.old) }
{
    let m = sizes.met;
    let s = sizes.stack;
    let k = sizes.kept;
    let h = sizes.hints;
    check(
        start,
        circuit,
        end,
        Terms { most: 9 },
        &mut met[..m],
        &mut stack[..s],
        &mut kept[..k],
        &mut hints[..h],
    )
}

// The same in buffers that hold sevens, and what it left there.
fn run(rt: &impl Print, start: &[u8], circuit: &[u8], end: &[u8], sizes: Sizes) -> io::Result<()>
    requires { (sizes.met ≤ 16387) × (sizes.stack ≤ 16387) × (sizes.kept ≤ 16387) × (sizes.hints ≤ 32771) }
{
    let mut met = [7u32; MORE_MARKS];
    let mut stack = [7u32; MORE_MARKS];
    let mut kept = [7u32; MORE_MARKS];
    let mut hints = [7u8; MORE_HINTS];
    let reply = lend(
        start, circuit, end, sizes, &mut met, &mut stack, &mut kept, &mut hints,
    );
    let fields = Fields::from(reply);
    put_digit(rt, fields.kind)?;
    put_number(rt, usize::from(fields.number))?;
    tell(rt, &met, &0, &7)?;
    tell(rt, &stack, &0, &7)?;
    tell(rt, &kept, &0, &7)?;
    tell(rt, &hints, &0, &7)?;
    println!(rt)
}

// A check that fails, one that holds, and one that is refused, in buffers of so many cells.
fn all_replies(rt: &impl Print, sizes: Sizes) -> io::Result<()>
    requires { (sizes.met ≤ 16387) × (sizes.stack ≤ 16387) × (sizes.kept ≤ 16387) × (sizes.hints ≤ 32771) }
{
    run(rt, &SET, &FLIP, &SET, sizes)?;
    run(rt, &SET, &[], &SET, sizes)?;
    run(rt, &SET, &FLIP, &FLIP, sizes)
}

fn main(rt: HostRuntime) -> io::Result<()> {
    let just = Sizes {
        met: MARKS,
        stack: MARKS,
        kept: MARKS,
        hints: HINTS,
    };
    all_replies(
        &rt,
        Sizes {
            met: MARKS - 1,
            ..just
        },
    )?;
    all_replies(
        &rt,
        Sizes {
            stack: MARKS - 1,
            ..just
        },
    )?;
    all_replies(
        &rt,
        Sizes {
            kept: MARKS - 1,
            ..just
        },
    )?;
    all_replies(
        &rt,
        Sizes {
            hints: HINTS - 1,
            ..just
        },
    )?;
    all_replies(&rt, just)?;
    all_replies(
        &rt,
        Sizes {
            met: MORE_MARKS,
            stack: MORE_MARKS,
            kept: MORE_MARKS,
            hints: MORE_HINTS,
        },
    )
}
