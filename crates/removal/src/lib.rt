// The places that a pass retains.
#![tactic(auto)]

mod jump;
mod plain;
pub mod retain;
