// Document 01, rules 6, 8 and 9 and reply 12, over all records of one kind: a scan says where the first bad record stands, and what is wrong with it.
#![tactic(auto)]

ghost use Rattle.std.specs.Prelude.{ℕ, ◌+◌, ◌*◌, ◌<◌};
ghost use Rattle.scans.specs.Scan.{FirstBad};

use refusals::Reason;

// The records of one kind: where the first begins, their size in bytes, and how many they are.
#[derive(Clone, Copy)]
pub struct Records {
    pub at: usize,
    pub size: usize,
    pub count: usize,
}

// The number, from 0, of the first record that has a fault, and its fault; nothing where none has one.
pub fn first_bad<F: Fn(usize) -> Option<Reason>>(
    records: Records,
    fault: F,
) -> Option<(usize, Reason)>
    requires room { records.at + records.count * records.size < 18446744073709551616 }
    requires callable { (i : ℕ) → i < records.count → F.pre fault (records.at + i * records.size) }
    ensures { FirstBad (F.post fault) records result }
{
    for i in 0..records.count {
        if let Some(reason) = fault(records.at + i * records.size) {
            return Some((i, reason));
        }
    }
    None
}
