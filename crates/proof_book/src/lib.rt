// The book of document 01 and demand 3. It has no code.
#![tactic(auto)]
