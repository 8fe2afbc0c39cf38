// Every public call is a step that demand 3 speaks of, row 19 and the record of bus time included. It has no code.
#![tactic(auto)]
