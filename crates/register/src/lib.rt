//! A register of shares: who takes part in a community on which day, with which share.
#![tactic(auto)]

pub mod entry;
pub mod register;
mod row;
