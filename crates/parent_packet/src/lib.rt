// The packet that gives shapes new parents: which bits it has, and that no shorter one does the same. What is claimed stands in
// specs/ and proofs/; there is no code here.
#![tactic(auto)]
