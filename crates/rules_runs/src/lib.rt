// Document 01's fourteen runs, and further ones, worked out under the rules: see specs/ for the lists and proofs/ for the theorems.
#![tactic(auto)]
