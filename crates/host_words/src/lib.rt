// No code: what a host reads stands in specs/, that it is what was told in proofs/.
#![tactic(auto)]
