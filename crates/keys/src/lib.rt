//! Keys: how a community divides what its members feed among those that draw.
#![tactic(auto)]

pub mod key;
pub mod sums;
