// The fields of a position, a scene and an update cover the bits of the call, in order, each bit once. What is claimed stands in
// specs/ and proofs/; there is no code here.
#![tactic(auto)]
