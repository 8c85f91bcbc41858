// What a refused call tells its caller, and why a host cannot be made.

#![tactic(auto)]

pub mod host;
pub mod refusal;
