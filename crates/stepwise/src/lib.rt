// How a level of a gate's result grows record by record, and that it comes to what the definitions number: specs/ and proofs/. No code.
#![tactic(auto)]
