// The theory of critical plans. The definitions are in specs/, the theorems in proofs/Theorems.antt. No code.
#![tactic(auto)]
