// The law for a struct behind a `&mut`: what rule and thin function state in specs/, the law in proofs/.
#![tactic(auto)]
