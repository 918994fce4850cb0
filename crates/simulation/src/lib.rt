// No code: document 01's four simulation games. Definitions in specs/, theorems in proofs/.
#![tactic(auto)]
