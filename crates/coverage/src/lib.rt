// Theory alone, with no code of its own: demand 3, from the promises of sending to those of receiving. What it says stands in specs/Coverage.antt.
#![tactic(auto)]
