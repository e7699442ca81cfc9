// What holds in every state that a run reaches from a fresh start: see specs/ for the words and proofs/Main.antt for the theorems.
#![tactic(auto)]
