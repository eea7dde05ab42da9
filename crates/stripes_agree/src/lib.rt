// No code: the laws that tie building and searching stripes together stand in proofs/.
#![tactic(auto)]
