//! What the whole project counts with: the limits, the refusals, days, shares and the running cut.
#![tactic(auto)]

pub mod amounts;
pub mod calendar;
pub mod cut;
pub mod limits;
pub mod refusal;
pub mod share;
