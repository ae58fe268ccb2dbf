// Document 01, "Amplitudes": definitions in specs/, theorems in proofs/. No code.
#![tactic(auto)]
