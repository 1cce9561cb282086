// The claims on what the programs print: the show's text tells what demand 3's list of calls gives, and the listing the fields
// of a reading. They stand in specs/ and proofs/. There is no code here.
#![tactic(auto)]
