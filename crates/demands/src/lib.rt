// No code: the three demands as theorems over the rules. Their statements are in specs/, their proofs in proofs/.
#![tactic(auto)]
