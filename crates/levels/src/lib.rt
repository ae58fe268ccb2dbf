// Document 01, "Stored form": the levels of a set file, by its LV records. Each function asks that these are there, and reads no other record.
#![tactic(auto)]

ghost use Rattle.std.specs.Prelude.{◌≡◌, ◌+◌, ◌≤◌, unwrap_or, IfSome};
ghost use Rattle.automata.specs.Sets.{sum};
ghost use Rattle.stored.specs.Form.{set_of};
ghost use Rattle.stored.specs.Rules.{level_of, levels_ok};
ghost use Rattle.levels.specs.Levelled.{Levelled};

use records::{HD_SIZE, LV_SIZE, count_at};

// The level of a state, from 1; nothing for a number that is on none.
pub fn level_of(s: &[u8], n: u8, state: u16) -> Option<u16>
    requires { Levelled s.now n }
    ensures is { unwrap_or result (n + 2) ≡ level_of (set_of s.now) state }
    ensures within { IfSome result (λ level. level ≤ n + 1) }
{
    let mut rest = state;
    for above in 0..u16::from(n) + 1 {
        let here = count_at(s, HD_SIZE + LV_SIZE * usize::from(above));
        if rest < here {
            return Some(above + 1);
        }
        rest -= here;
    }
    None
}

// How many states the levels count together. At most 256 counts of two bytes do not wrap.
pub fn level_sum(s: &[u8], n: u8) -> u32
    requires { Levelled s.now n }
    ensures { result ≡ sum (set_of s.now).counts }
{
    let mut total: u32 = 0;
    for above in 0..usize::from(n) + 1 {
        total += u32::from(count_at(s, HD_SIZE + LV_SIZE * above));
    }
    total
}

// Rule 7: level 1 is not empty, and the level counts sum to `states`.
pub fn levels_ok(s: &[u8], n: u8, states: u16) -> bool
    requires { Levelled s.now n }
    ensures { result ≡ levels_ok states (set_of s.now) }
{
    let roots = count_at(s, HD_SIZE);
    let total = level_sum(s, n);
    (roots != 0) & (total == u32::from(states))
}
