// Up to four drivers that share the bus time: the record by the history of their calls. It has no code.
#![tactic(auto)]
