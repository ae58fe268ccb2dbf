// Document 02, request 10: the 24 Clifford elements of one qubit, their words in H and S, and sequences of them. Definitions and theorems, no code.
#![tactic(auto)]
