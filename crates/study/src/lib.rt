// The study: one document, its goal and the goal's graph, and the calls on them.
#![tactic(auto)]

pub mod audit;
pub mod goal;
pub mod lone;
pub mod pairs;
pub mod reader;
pub mod refusal;
pub mod study;
