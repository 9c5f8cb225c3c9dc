//! The settlement of one quarter hour in one community.
#![tactic(auto)]

pub mod quarter_hour;
pub mod settle;
