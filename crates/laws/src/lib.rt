// No code: laws of the relations that the games decide, and of quotients. Theorems in proofs/.
#![tactic(auto)]
