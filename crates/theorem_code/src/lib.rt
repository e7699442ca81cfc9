// What holds of the code for every order of events: see specs/ for the words and proofs/Main.antt for the theorems.
#![tactic(auto)]
