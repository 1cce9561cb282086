// Every name that a reading records is known, and every number that it gives has words: the claims stand in specs/, their proofs
// in proofs/. There is no code here.
#![tactic(auto)]
