// Document 01, "Replies": both jobs whole, the C entry and the program: definitions in specs/, theorems in proofs/. No code.
#![tactic(auto)]
