// The text of document 01's program: `input`, how its input divides, and `line`, the one line that it prints. Neither asks anything of its
// caller.
#![tactic(auto)]

mod digits;
pub mod input;
pub mod line;
