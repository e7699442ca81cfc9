// What the kernel can learn of private pages and registers: see specs/ for the words and proofs/Main.antt for the theorems.
#![tactic(auto)]
