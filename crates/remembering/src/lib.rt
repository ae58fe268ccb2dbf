// Blocks remembered level by level, so that a walk that meets one again knows its number of members at once. A block is what belongs to one
// level, whose states are those from `from` up to below `to`: their bytes in `row`, and their marks, `wide` cells for each state, in the first p
// planes of `stack`, of which plane j begins at cell j * plane. Slot k remembers a block for each level: its row begins at cell k * cells of
// `rows`, its planes at cell k * (room * plane) of `kept`, and cell k * 21 + at of `seen` has the block's members and its p, or nothing.
// What a block says is not known here: the contracts hold for every test of blocks.
#![tactic(auto)]

ghost use Rattle.std.specs.Prelude.{true, IfSome, List, ◌≡◌, ℕ, suc, ◌+◌, ◌*◌, ◌≤◌, ◌<◌, length};
ghost use Rattle.remembering.specs.Copies.{Copied, CopiedPlanes, EqualPlanes, Spans, SpansPlanes};
ghost use Rattle.remembering.specs.Memory.{levels_most, cell_of, Saying};
ghost use Rattle.remembering.specs.Slots.{PlacedIn, FitsIn, SameBlock, HasBlock, HeldIn, PutIn, SameAs, MemoryIn, SameSizes};

// The most levels: a slot has so many cells of `seen`.
pub const LEVELS: usize = 21;

// What is known of a block that is remembered: its members, and how many planes it has.
#[derive(Clone, Copy)]
pub struct Seen {
    pub members: u32,
    pub planes: u16,
}

// A block of a level: its states, the number of its planes, how wide its marks and its planes are, and the row and the stack where it lies,
// which have so many cells and room for so many planes.
#[derive(Clone, Copy)]
pub struct Block<'a> {
    pub from: u16,
    pub to: u16,
    pub p: u16,
    pub wide: u16,
    pub plane: u16,
    pub room: u16,
    pub cells: u16,
    pub row: &'a [u8],
    pub stack: &'a [u32],
}

// The slots, so many, and whose turn it is at each level.
#[derive(Drop)]
pub struct Slots<'a> {
    pub count: u16,
    pub rows: &'a mut [u8],
    pub kept: &'a mut [u32],
    pub seen: &'a mut [Option<Seen>],
    pub turn: &'a mut [u8],
}

// The cells from..to of each of the first p planes are those of the other list, which begins at base.
fn equal_planes(
    stack: &[u32],
    kept: &[u32],
    from: usize,
    to: usize,
    plane: usize,
    p: usize,
    base: usize,
) -> bool
    requires { SpansPlanes from to plane p base (length stack.now) (length kept.now) }
    ensures { result ≡ true → EqualPlanes from to plane p base stack.now kept.now }
{
    for j in 0..p {
        let (first, last) = (j * plane + from, j * plane + to);
        if stack[first..last] != kept[base + first..base + last] {
            return false;
        }
    }
    true
}

// Bytes from..to of a row become those of the other, which begins at base: one by one, since they are few, and the library's copy of a part would ask
// whoever links the archive for memmove.
fn copy_bytes(row: &[u8], rows: &mut [u8], from: usize, to: usize, base: usize)
    requires { Spans from to base (length row.now) (length rows.old) }
    ensures { Copied from to base row.now rows.old rows.new }
{
    for i in from..to {
        rows[base + i] = row[i];
    }
}

// The same of cells of 32 bits.
fn copy_level(stack: &[u32], kept: &mut [u32], from: usize, to: usize, base: usize)
    requires { Spans from to base (length stack.now) (length kept.old) }
    ensures { Copied from to base stack.now kept.old kept.new }
{
    for i in from..to {
        kept[base + i] = stack[i];
    }
}

// The cells from..to of each of the first p planes become those of the other list, which begins at base.
fn copy_planes(
    stack: &[u32],
    kept: &mut [u32],
    from: usize,
    to: usize,
    plane: usize,
    p: usize,
    base: usize,
)
    requires { SpansPlanes from to plane p base (length stack.now) (length kept.old) }
    ensures { CopiedPlanes from to plane p base stack.now kept.old kept.new }
{
    for done in 0..p {
        let (first, last) = (done * plane + from, done * plane + to);
        copy_level(stack, kept, first, last, base);
    }
}

// Slot k's cell of `seen` for the level.
fn cell(k: u16, at: u8) -> usize
    ensures { result ≡ cell_of k at }
{
    usize::from(k) * LEVELS + usize::from(at)
}

impl Slots<'_> {
    // Slot k's block is this one: the same bytes, then the same marks.
    fn has(&self, block: &Block<'_>, k: u16) -> bool
        requires { PlacedIn self.now block.now k }
        ensures { result ≡ true → HasBlock self.now block.now k }
    {
        let (from, to) = (block.from as usize, block.to as usize);
        let here = k as usize * block.cells as usize;
        if block.row[from..to] != self.rows[here + from..here + to] {
            return false;
        }
        let (wide, plane) = (block.wide as usize, block.plane as usize);
        let base = k as usize * (block.room as usize * plane);
        equal_planes(
            block.stack,
            self.kept,
            from * wide,
            to * wide,
            plane,
            block.p as usize,
            base,
        )
    }

    // Slot k gets this block.
    fn put(&mut self, block: &Block<'_>, k: u16)
        requires { PlacedIn self.old block.now k }
        ensures { PutIn self.old self.new block.now k }
    {
        let (from, to) = (block.from as usize, block.to as usize);
        let here = k as usize * block.cells as usize;
        copy_bytes(block.row, self.rows, from, to, here);
        let (wide, plane) = (block.wide as usize, block.plane as usize);
        let base = k as usize * (block.room as usize * plane);
        copy_planes(
            block.stack,
            self.kept,
            from * wide,
            to * wide,
            plane,
            block.p as usize,
            base,
        );
    }

    // The members of the block that slot k has for the level, if that is this one.
    fn recall(&self, at: u8, block: &Block<'_>, k: u16) -> Option<u32>
        requires { PlacedIn self.now block.now k × (cell_of k at < length self.now.seen.now) }
        ensures { IfSome result (λ m. HeldIn self.now block.now k at m) }
    {
        let seen = self.seen[cell(k, at)]?;
        if seen.planes != block.p {
            return None;
        }
        if !self.has(block, k) {
            return None;
        }
        Some(seen.members)
    }

    // The members of a block that is remembered for the level and is this one.
    pub fn find(&self, at: u8, block: &Block<'_>) -> Option<u32>
        requires { FitsIn self.now block.now at }
        ensures { (low : ℕ → ℕ) (good : Saying) → block.now.from ≡ low at → block.now.to ≡ low (suc at)
            → MemoryIn self.now block.now low good
            → IfSome result (λ m. good at block.now.p block.now.row.now block.now.stack.now m ≡ true) }
    {
        for k in 0..self.count {
            if let Some(m) = self.recall(at, block, k) {
                return Some(m);
            }
        }
        None
    }

    // The slot whose turn it is at the level; the next one's turn comes then.
    fn next(&mut self, at: u8) -> u16
        requires { (at < length self.old.turn.now) × (0 < self.old.count) }
        ensures slot { result < self.old.count }
        ensures others { SameAs self.old self.new }
    {
        let k = u16::from(self.turn[usize::from(at)]) % self.count;
        self.turn[usize::from(at)] = u8::try_from((k + 1) % self.count).unwrap_or(0);
        k
    }

    // The block of a level is remembered, with its members, in the slot whose turn it is. Nothing is done where there is no slot.
    pub fn keep(&mut self, at: u8, block: &Block<'_>, members: u32)
        requires { FitsIn self.old block.now at × (levels_most ≤ length self.old.turn.now) }
        ensures sizes { SameSizes self.old self.new }
        ensures memory { (low : ℕ → ℕ) (good : Saying) → ((i : ℕ) → i < levels_most → low i ≤ low (suc i)) → block.now.from ≡ low at → block.now.to ≡ low (suc at)
            → MemoryIn self.old block.now low good
            → ((row' stack' : List ℕ) → SameBlock block.now row' stack' → good at block.now.p row' stack' members ≡ true)
            → MemoryIn self.new block.now low good }
    {
        if self.count == 0 {
            return;
        }
        let k = self.next(at);
        self.put(block, k);
        self.seen[cell(k, at)] = Some(Seen {
            members,
            planes: block.p,
        });
    }
}
