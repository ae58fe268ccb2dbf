// Document 01, "Trees, words and members": definitions in specs/, theorems in proofs/. No code.
#![tactic(auto)]
