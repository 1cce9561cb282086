// The claims at the environment of a program that is linked. It stands in proofs/. There is no code here.
#![tactic(auto)]
