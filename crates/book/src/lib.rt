// The book of demand 3, as the fold of a step, and the steps of a scene and of an update: they stand in specs/ and proofs/.
// There is no code here.
#![tactic(auto)]
