// That the step which the words take is the step of the rules: laws alone.
#![tactic(auto)]
