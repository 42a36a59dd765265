//! Priced rows: worked by hand (`worked`, `pieces`), and random prices on small random projects
//! against the least makespan of all schedules, by enumeration (`random`).
#![tactic(auto)]

#[cfg(test)]
mod drawn;
#[cfg(test)]
mod enumeration;
#[cfg(test)]
mod fixtures;
#[cfg(test)]
mod pieces;
#[cfg(test)]
mod random;
#[cfg(test)]
mod worked;
