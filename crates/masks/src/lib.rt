// Document 01, "Trees, words and members": a set of choices as a 32-bit mask, in which choice c has the value 2^c.
#![tactic(auto)]

ghost use Rattle.std.specs.Prelude.{◌≡◌, ◌≤◌};
ghost use Rattle.automata.specs.Choice.{choices_most, least};
ghost use Rattle.masks.specs.Next.{NextChoice};

// The least choice of a mask; 32 for the empty one, a number and no None, since the definition (automata/Choice: least) says that number.
pub fn least_choice(m: u32) -> u32
    ensures { (result ≡ least m) × (result ≤ 32) }
{
    u32::trailing_zeros(m)
}

// The mask's first choice from `from` on, if it has one.
pub fn next_choice(mask: u32, from: u8) -> Option<u8>
    requires { from ≤ choices_most }
    ensures { NextChoice mask from result }
{
    if from >= 32 {
        return None;
    }
    let rest = mask >> (from as u32);
    if rest == 0 {
        return None;
    }
    Some(from + least_choice(rest) as u8)
}
