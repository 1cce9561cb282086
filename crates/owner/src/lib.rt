// What a function's theorem says to whoever owns the memory: it stands in specs/ and proofs/. There is no code here.
#![tactic(auto)]
