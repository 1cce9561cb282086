// What `scene-fields` prints of a reading, a line for each field and then one for the outcome: the definition stands in specs/. There
// is no code here.
#![tactic(auto)]
