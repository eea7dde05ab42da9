// No code: the laws that tie building all rings' indexes to asking them stand in proofs/.
#![tactic(auto)]
