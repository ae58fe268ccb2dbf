// Document 01, the check: definitions of the verdict and of an exact search in specs/, theorems in proofs/. No code.
#![tactic(auto)]
