// The calls of an operator on a script: each is lent the host, the script's space, working words and labels to drop.

#![tactic(auto)]

pub mod load;
pub mod record;
