//! The search, and two that tell each other what they learn, on random clauses against enumeration, on
//! pigeonholes, and where memory ends.
#![tactic(auto)]

#[cfg(test)]
mod formulas;
#[cfg(test)]
mod pairs;
#[cfg(test)]
mod searches;
