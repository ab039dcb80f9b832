//! What one span of a run holds and reports.
#![tactic(auto)]

mod fact;

pub use fact::Fact;
