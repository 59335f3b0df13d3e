// Plans that are run with a slowest pace, which may be absent. The definitions are in specs/, the theorems in proofs/Theorems.antt. No code.
#![tactic(auto)]
