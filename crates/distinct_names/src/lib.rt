// Two known name words have different texts; and texts of single words, worked out. There is no code here.
#![tactic(auto)]
