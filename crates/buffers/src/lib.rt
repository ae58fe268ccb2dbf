// Every named size of a work buffer and every bound of a set, said once for all crates of code. The contracts' numbers are those of
// specs/Sizes.antt; the proofs hold both together, and a test holds docs/BUFFERS.md to this file.
#![tactic(auto)]

// "At most 1,024 states (128 in an end set), 2,048 inner, 1,024 leaves"
pub const STATES: u16 = 1024;

pub const END_STATES: u16 = 128;

pub const INNER: u16 = 2048;

pub const LEAVES: u16 = 1024;

// A table of such a set: three numbers and a mask to a record, four coefficients to a leaf, the states of each of 21 levels, and where each
// state's rows begin, with one place past the last.
pub const ROWS: usize = 9216;

pub const MASKS: usize = 3072;

pub const COEFS: usize = 4096;

pub const COUNTS: usize = 21;

pub const FIRST: usize = 1025;

// The keys of a level and two more, or their links; and the heads of the chains.
pub const KEYS: usize = 1026;

pub const HEADS: usize = 1024;

// The rows of the check's last phase: marks of pairs of an image state and an end state, and bytes for the states of blocks.
pub const MARKS: usize = 16384;

pub const HINTS: usize = 32768;

// "output of at least 49,248 bytes"
pub const OUTPUT: usize = 49248;
