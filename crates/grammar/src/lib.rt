// No code: RFC 8259's ABNF as rules (specs/Rfc.antt), and that json_tree's definition of a text says the same
// (proofs/Same.antt).
#![tactic(auto)]
