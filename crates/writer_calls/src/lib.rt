// What start, add and close leave, and any list of them: specs/Left states the writer's half of demand 3. No code.
#![tactic(auto)]
