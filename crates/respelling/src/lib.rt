// Tables, scripts and inputs in their strict spelling, which get the same answer: laws alone.
#![tactic(auto)]
