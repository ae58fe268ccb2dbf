// Lent buffers left at zero: document 01, "their named size is zero, further bytes unchanged". `fill` sets every cell of what it is lent,
// and `zero_front_u8` lends it the cells of the named size, so that it cannot touch a further one. Nothing here reads a cell.
#![tactic(auto)]

ghost use Rattle.std.specs.Prelude.{◌≡◌, ◌++◌, ◌≤◌, length, replicate, drop};

// The first n cells are 0, and the further ones are as they were.
pub fn zero_front_u8(buf: &mut [u8], n: usize)
    requires { n ≤ length buf.old }
    ensures { buf.new ≡ replicate n 0 ++ drop n buf.old }
{
    buf[..n].fill(0);
}

// Every cell of the three rows of marks and of the hints is 0.
pub fn wipe_marks(met: &mut [u32], stack: &mut [u32], kept: &mut [u32], hints: &mut [u8])
    ensures met_after { met.new ≡ replicate (length met.old) 0 }
    ensures stack_after { stack.new ≡ replicate (length stack.old) 0 }
    ensures kept_after { kept.new ≡ replicate (length kept.old) 0 }
    ensures hints_after { hints.new ≡ replicate (length hints.old) 0 }
{
    met.fill(0);
    stack.fill(0);
    kept.fill(0);
    hints.fill(0);
}
