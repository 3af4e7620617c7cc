// No code: the definitions of the call list, of sealing and of opening, and their laws.
#![tactic(auto)]
