// The program's input: "JB, B, then the lengths of start, circuit and end (B and each length 4 bytes, little-endian), then the three".
// `divide` takes an input of any length.
ghost use Rattle.std.specs.Prelude.{◌≡◌, false, MatchOption};
ghost use Rattle.jobs.specs.Program.{input_ok};
ghost use Rattle.lines.specs.Divided.{lengths_fit, Divided};

use fields::{mark_at, u32_at};

// The bytes before the three: the mark, B, and three lengths.
pub const FIXED_SIZE: usize = 18;

// "a length over 65,536" is refused.
const PART_MOST: u32 = 65536;

// The allowance and the three files of an input.
#[derive(Clone, Copy)]
pub struct Parts<'a> {
    pub allowance: u32,
    pub start: &'a [u8],
    pub circuit: &'a [u8],
    pub end: &'a [u8],
}

// No length is over 65,536, and the input is "18 bytes plus the lengths".
fn lengths_fit(total: usize, start: u32, circuit: u32, end: u32) -> bool
    ensures { result ≡ lengths_fit total start circuit end }
{
    if PART_MOST < start || PART_MOST < circuit || PART_MOST < end {
        return false;
    }
    total == FIXED_SIZE + start as usize + circuit as usize + end as usize
}

// How an input divides; none is what is refused with 18.
pub fn divide(input: &[u8]) -> Option<Parts<'_>>
    ensures { MatchOption result (input_ok input.now ≡ false) (λ p. Divided input.now p.allowance p.start.now p.circuit.now p.end.now) }
{
    if input.len() < FIXED_SIZE {
        return None;
    }
    let start = u32_at(input, 6);
    let circuit = u32_at(input, 10);
    let end = u32_at(input, 14);
    if !mark_at(input, 0, b'J', b'B') || !lengths_fit(input.len(), start, circuit, end) {
        return None;
    }
    let (start, rest) = input[FIXED_SIZE..].split_at(start as usize);
    let (circuit, end) = rest.split_at(circuit as usize);
    Some(Parts {
        allowance: u32_at(input, 2),
        start,
        circuit,
        end,
    })
}
