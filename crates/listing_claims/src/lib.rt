// What is printed of a call is the listing of the reading that the rules define: the claim stands in specs/ and proofs/. There is
// no code here.
#![tactic(auto)]
