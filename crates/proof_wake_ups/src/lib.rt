// Request Nine: the list of wake-ups that an operation's end gives is the sequence of its script's, none lost. It has
// no code.
#![tactic(auto)]
