// Laws over every rule, proved once, and one over those that make a field of all bits that they read (`Tiles`): they stand in
// specs/ and proofs/. There is no code here.
#![tactic(auto)]
