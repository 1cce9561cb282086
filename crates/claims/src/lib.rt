// Demand 3, a claim on the functions as their users have them. It stands in specs/ and proofs/. There is no code here.
#![tactic(auto)]
