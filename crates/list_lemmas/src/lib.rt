//! Lemmas on lists that the standard library has not, for the proofs of other crates: what holds of each
//! element (`proofs/Every`), what a search finds (`proofs/Searches`), and parts of lists of bytes
//! (`proofs/Bytes`). No code is here.
#![tactic(auto)]
