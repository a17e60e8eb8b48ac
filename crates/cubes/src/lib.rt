// Pseudocubes and primes of a table, and their listing (document 01, "Primes"): definitions and laws, and two constants. What the words mean is in
// specs/, the laws about them in proofs/. Read next: specs/Lib.antt.
#![tactic(auto)]

// The largest number of variables of a listing, as `max_listed` in specs/.
pub const MAX_LISTED: usize = 6;

// The number of bytes of a record, as `record_length` in specs/.
pub const RECORD_LENGTH: usize = 9;
