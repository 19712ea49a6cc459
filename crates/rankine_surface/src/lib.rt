// No code: the statement stands in specs/, its proof in proofs/.
#![tactic(auto)]
