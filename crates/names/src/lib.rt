// Numbering by first mention: a key's number is its place among the keys mentioned so far, in their order. A key has a bucket, and a chain goes
// through each bucket's keys, so that a search takes a step or two in the usual case; its answer is exact for any keys, since the key itself is
// compared. A cell of `heads` or `link` holds a place and one more, or 0 for none: `heads` has the last place of each bucket, `link` for each
// place the last one before it of the same bucket. `begin` makes the chains and `mention` keeps them.
#![tactic(auto)]

ghost use Rattle.std.specs.Prelude.{◌≡◌, ◌+◌, ◌<◌, length, get_or, set, take, replicate};
ghost use Rattle.names.specs.Chain.{bucket_of, Chained};
ghost use Rattle.names.specs.Found.{found_in, Numbered};

// Room for keys and for the chains through them, and how many keys there are.
#[derive(Drop)]
pub struct Names<'a> {
    pub keys: &'a mut [u64],
    pub link: &'a mut [u16],
    pub heads: &'a mut [u16],
    pub count: u16,
}

// The place of a key that was mentioned, and how many keys there are now.
#[derive(Clone, Copy)]
pub struct Mentioned {
    pub place: u16,
    pub count: u16,
}

// The size that the jobs lend: the remainder by a number that is known is no division.
const OFTEN: usize = 1024;

// The bucket of a key, below `size`.
fn bucket_of(key: u64, size: usize) -> usize
    requires { 0 < size }
    ensures { (result ≡ bucket_of size key) × (result < size) }
{
    let k = key as usize;
    let sum = k % 65536 + k / 65536 % 65536 * 37 + k / 4294967296 * 7;
    if size == OFTEN {
        return sum % OFTEN;
    }
    sum % size
}

// Whether a key is among the first `count`, and where. The walk along its bucket's chain goes to ever smaller places, so it ends.
pub fn find(keys: &[u64], link: &[u16], heads: &[u16], count: u16, key: u64) -> Option<u16>
    requires { Chained keys.now link.now heads.now count }
    ensures { result ≡ found_in key (take count keys.now) }
{
    let b = bucket_of(key, heads.len());
    let mut next = heads[b];
    while next != 0 {
        let place = next - 1;
        let at = place as usize;
        if keys[at] == key {
            return Some(place);
        }
        next = link[at];
    }
    None
}

// A key that is new takes the next place, and becomes the first of its bucket's chain.
fn add(keys: &mut [u64], link: &mut [u16], heads: &mut [u16], count: u16, key: u64)
    requires { (count < length keys.old) × (count < length link.old) × (0 < length heads.old) × (count < 65535) }
    ensures keys_after { keys.new ≡ set keys.old count key }
    ensures link_after { link.new ≡ set link.old count (get_or heads.old (bucket_of (length heads.old) key) 0) }
    ensures heads_after { heads.new ≡ set heads.old (bucket_of (length heads.old) key) (count + 1) }
{
    let at = count as usize;
    let b = bucket_of(key, heads.len());
    keys[at] = key;
    link[at] = heads[b];
    heads[b] = count + 1;
}

// A key is mentioned: its number, and one key more only where it is new. There must be a free cell in any case.
pub fn mention(
    keys: &mut [u64],
    link: &mut [u16],
    heads: &mut [u16],
    count: u16,
    key: u64,
) -> Mentioned
    requires chained { Chained keys.old link.old heads.old count }
    requires count_in_bounds { (count < length keys.old) × (count < length link.old) × (count < 65535) }
    ensures { Numbered keys.old link.old heads.old count key keys.new link.new heads.new result }
{
    let Some(place) = find(keys, link, heads, count, key) else {
        add(keys, link, heads, count, key);
        return Mentioned {
            place: count,
            count: count + 1,
        };
    };
    Mentioned { place, count }
}

// No key is mentioned yet: every chain is empty.
pub fn begin(heads: &mut [u16])
    ensures { heads.new ≡ replicate (length heads.old) 0 }
{
    heads.fill(0);
}
