// What allocating a list as one operation hands out: that of allocating its endpoints one by one. It has no code.
#![tactic(auto)]
