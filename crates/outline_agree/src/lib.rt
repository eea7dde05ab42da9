// No code: the laws that tie the inside question to the segments themselves, whatever indexes it reads, stand in proofs/.
#![tactic(auto)]
