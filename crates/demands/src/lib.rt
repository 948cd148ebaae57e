// The customer's demands, through the doors: laws alone.
#![tactic(auto)]
