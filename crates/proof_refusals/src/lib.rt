// A refusal changes nothing but what document 01 names. It has no code.
#![tactic(auto)]
