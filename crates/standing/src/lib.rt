// No code: what it means that a set stands in lent slices (specs/Standing.antt).
#![tactic(auto)]
