// Document 01's worked examples, as one list with one claim: specs/Rows.antt. There is no code here.
#![tactic(auto)]
