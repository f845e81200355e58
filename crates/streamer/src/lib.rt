//! Where the blocks of a map lie between frames, and which of them move for a frame.
#![tactic(auto)]

mod plan;
mod rest;
mod table;

pub use plan::{Plan, PlanError, plan_frame};
pub use rest::Rest;

#[cfg(test)]
mod tests;
