// No code: the theory of a finite game that is decided by lifting. Definitions in specs/, theorems in proofs/.
#![tactic(auto)]
