// What a gate builds from a table: the theorem that ties the slices' automaton to the definitions. proofs/ only; no code.
#![tactic(auto)]
