// Containers of fixed room over lent memory: the stack.

#![tactic(auto)]

pub mod stack;
