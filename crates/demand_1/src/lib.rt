// Demand 1, one claim on each call by what its function promises: it stands in specs/ and proofs/. There is no code here.
#![tactic(auto)]
