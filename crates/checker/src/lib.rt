// The checker of scripts: reads words one by one and says what is wrong with the first bad one.

#![tactic(auto)]

mod frame;
mod rules;
pub mod script;
