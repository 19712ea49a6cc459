// No code: the lemmas stand in specs/.
#![tactic(auto)]
