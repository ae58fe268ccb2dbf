// Document 01, rule 10, for records of either kind: one pass that carries the last state, the least choice that may come next and the choices
// that this state has used, so that no two records need to be compared again.
#![tactic(auto)]

ghost use Rattle.std.specs.Prelude.{◌≡◌, [], ℕ, ◌+◌, ◌*◌, ◌<◌, ◌≤◌, length, IfSome};
ghost use Rattle.stored.specs.Fields.{records_from};
ghost use Rattle.stored.specs.Rules.{first_clash};
ghost use Rattle.records.specs.Read.{bare, key_read};
ghost use Rattle.scans.specs.Scan.{stopped};
ghost use Rattle.order.specs.Pass.{fits_next, used_after, run_after};

use masks::least_choice;
use records::{Key, key_at};
use scans::Records;

// What the records passed so far leave. Before the first record all three are 0, and any record fits.
#[derive(Clone, Copy, Default)]
pub struct Run {
    pub state: u16,
    pub next: u32,
    pub used: u32,
}

impl Run {
    // A record may stand next.
    fn fits(self, key: Key) -> bool
        ensures { result ≡ fits_next self key }
    {
        let least = least_choice(key.mask);
        let free = self.used & key.mask == 0;
        (self.state < key.state) | ((self.state == key.state) & ((self.next <= least) & free))
    }

    // The choices used by a record's state, this record's among them: those of an earlier state are forgotten.
    fn used_after(self, key: Key) -> u32
        ensures { result ≡ used_after self.state self.used key.state key.mask }
    {
        if self.state == key.state {
            return self.used | key.mask;
        }
        key.mask
    }

    // What a record leaves for the next one.
    fn after(self, key: Key) -> Run
        ensures { result ≡ run_after self key }
    {
        Run {
            state: key.state,
            next: least_choice(key.mask) + 1,
            used: self.used_after(key),
        }
    }
}

// The number, from 0, of the first record that clashes with an earlier one; nothing where none does.
pub fn first_clash(s: &[u8], records: Records) -> Option<usize>
    requires { (8 ≤ records.size) × (records.at + records.count * records.size ≤ length s.now) }
    ensures first { result ≡ stopped records.count (first_clash [] (records_from (λ (i : ℕ). bare (key_read s.now i)) records.at records.size records.count)) }
    ensures within { IfSome result (λ i. i < records.count) }
{
    let mut run = Run::default();
    for i in 0..records.count {
        let key = key_at(s, records.at + i * records.size);
        if !run.fits(key) {
            return Some(i);
        }
        run = run.after(key);
    }
    None
}
