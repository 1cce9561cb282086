// What the functions that the programs call to print do to the cells of a memory: a show's text, a part of it, metadata, and the
// lines of a listing. It stands in specs/ and proofs/. There is no code here.
#![tactic(auto)]
