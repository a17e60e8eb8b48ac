// The form written for a table (document 01, "The written form"). There is no code. What the words mean is in specs/, the laws about
// them in proofs/. Read next: specs/CanonicalProduct.antt.
#![tactic(auto)]
