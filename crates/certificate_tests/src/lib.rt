//! Proofs in both forms (`proofs`), certificates of a small file (`files`), and their faults,
//! worked by hand. Larger files and damaged proofs are in `tests/certificates`.
#![tactic(auto)]

#[cfg(test)]
mod files;
#[cfg(test)]
mod proofs;
