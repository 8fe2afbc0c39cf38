// Request Fourteen: one channel's data can't disturb another. It has no code.
#![tactic(auto)]
