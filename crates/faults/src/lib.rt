// Why a script is refused: the faults that each layer finds, one inside another, and the refusal of each.

#![tactic(auto)]

pub mod call;
pub mod tree;
