// No code: RULES, section 8, as one statement in specs/.
#![tactic(auto)]
