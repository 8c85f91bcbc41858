// Functions that carry the theorems about runs and folds: a theorem counts where a contract names it, and no code folds
// yet whose contract could.

#![tactic(auto)]

pub mod examples;
pub mod folds;
pub mod runs;
