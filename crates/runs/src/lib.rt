// What a scene's reading and the three forms of an update do to the cells of a memory: it stands in specs/ and proofs/. There
// is no code here.
#![tactic(auto)]
