// The spaces inside a set of vectors and the largest of them (document 02, No. 4): definitions and laws, no code. What the words mean is in specs/, the
// laws about them in proofs/. Read next: specs/Spaces.antt.
#![tactic(auto)]
