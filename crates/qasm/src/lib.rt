// Document 02, request 1: OpenQASM 2.0 as far as routines use it: tokens, a grammar on its own, a reader that takes one token at a time, and why it
// refuses exactly where the grammar does. Definitions and theorems, no code.
#![tactic(auto)]
