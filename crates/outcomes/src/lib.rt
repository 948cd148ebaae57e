// One outcome for each call of a door: laws alone.
#![tactic(auto)]
