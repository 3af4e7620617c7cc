// Bits, bytes, words and lists by index: no code. The definitions are in specs/, the laws that the other crates cite in proofs/.
#![tactic(auto)]
