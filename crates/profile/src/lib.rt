// What is claimed of the end of memory (Q-14): the claims and the worked cases are in specs/.
#![tactic(auto)]
