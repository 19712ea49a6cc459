// No code: the statements stand in specs/, their proofs in proofs/.
#![tactic(auto)]
