// Finite transition systems: the trait, systems given by tables, and two systems side by side.
#![tactic(auto)]

mod bit;
pub mod joint;
mod led;
pub mod listed;
pub mod moves;
mod picked;
mod seen;
pub mod system;
#[cfg(test)]
mod tests;
