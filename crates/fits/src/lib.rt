// Every state that the rules reach fits the types of its fields. No code: the laws are in proofs/.
#![tactic(auto)]
