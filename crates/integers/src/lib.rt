//! Whole numbers of either sign: `specs/` defines division rounded down and sums over lists, and `proofs/` has the laws that the other crates cite.
#![tactic(auto)]
