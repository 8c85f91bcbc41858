// The values of a sheet: booleans, numbers and texts, with strict equality, truth and how they are shown.

#![tactic(auto)]

pub mod sheet_value;
pub mod text;
