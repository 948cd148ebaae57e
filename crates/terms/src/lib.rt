// A table's terms as trees: definitions and laws alone, over what the table check leaves in its columns.
#![tactic(auto)]
