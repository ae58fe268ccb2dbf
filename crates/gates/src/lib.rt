// Document 01, circuits, "What each gate builds" and replies 11, 12, 14 to 16: definitions in specs/, theorems in proofs/. No code.
#![tactic(auto)]
