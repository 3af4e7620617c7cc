// No code: demand 3 for the functions that C calls.
#![tactic(auto)]
