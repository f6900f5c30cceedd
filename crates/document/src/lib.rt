// Documents: their lines, what they declare, and the formulas of their form lines.
#![tactic(auto)]

pub mod declared;
pub mod document;
pub mod fault;
pub mod fields;
pub mod form;
pub mod lines;
pub mod load;
pub mod names;
#[cfg(test)]
mod tests;
pub mod words;
