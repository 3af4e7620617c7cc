// The whole book: demand 3, one theorem over the definitions in the contracts of start, add, close and check (specs/Demand3); what fetch gives and
// the page; where refusal 13 is met, one kind a book (specs/Limits); rules for languages compared (specs/Rules). No code.
#![tactic(auto)]
