// Regular programs of actions: their text, the row of masks that it spells, and the automaton made of a row.
#![tactic(auto)]

pub mod automaton;
pub mod check;
pub mod fault;
pub mod masks;
pub mod name;
pub mod read;
pub mod row;
#[cfg(test)]
mod tests;
