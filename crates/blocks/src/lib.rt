// Blocks of a walk that remembers: definitions and theorems only.
#![tactic(auto)]
