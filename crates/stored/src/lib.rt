// Document 01, "Stored form" and replies 1 to 10: definitions in specs/, theorems in proofs/. No code.
#![tactic(auto)]
