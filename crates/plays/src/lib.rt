// No code: simulation as paper 001 defines it, by strategies with memory and infinite plays, is what document 01 calls won. Definitions in specs/, theorems in proofs/.
#![tactic(auto)]
