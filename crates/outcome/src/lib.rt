// No code: what it means that a promise leaves one outcome stands in specs/, and how that is shown in proofs/.
#![tactic(auto)]
