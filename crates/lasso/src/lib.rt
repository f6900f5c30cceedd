// Lassos: sessions that run into a loop. Judging a document's forms on one, and its text.
#![tactic(auto)]

pub mod decimal;
pub mod judge;
pub mod lasso;
mod part;
pub mod print;
pub mod scan;
pub mod step;
#[cfg(test)]
mod tests;
pub mod until;
pub mod valid;
