// What a program reads: as much of its input as a buffer holds. The programs of this repository read into arrays of their own, so that none of them
// needs memory from the heap for it.
#![tactic(auto)]

ghost use Rattle.std.specs.Prelude.{◌≡◌, ◌≤◌, length, min, IfOk, IfSome};

use std::io;
use std::io::Read;

// Reads until the buffer is full or the input ends, and says how much of the buffer that is. A read that fails leaves the buffer as long as it was;
// what it holds then is not said.
pub fn read_full<R: Read>(input: &mut R, buf: &mut [u8]) -> io::Result<usize>
    ensures in_bounds { IfOk result (λ n. n ≤ length buf.new) }
    ensures count { IfOk result (λ n. IfSome (R.remaining input.old) (λ xs. n ≡ min (length xs) (length buf.old))) }
    ensures kept { length buf.new ≡ length buf.old }
{
    let most = buf.len();
    let mut rest: &mut [u8] = buf;
    let count = io::copy(&mut input.take(most as u64), &mut rest)?;
    Ok(most.min(count as usize))
}
