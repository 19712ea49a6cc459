// Section 3 of RULES as one statement: each function's range, its answers and how near they are. No code.
#![tactic(auto)]
