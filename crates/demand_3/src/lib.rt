// No code: demand 3 stands in specs/Demand3.antt and is proved in proofs/Demand3.antt.
#![tactic(auto)]
