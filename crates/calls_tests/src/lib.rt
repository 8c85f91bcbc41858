// Tests of load on scripts that break a rule, and on their neighbours that do not.

#![tactic(auto)]

#[cfg(test)]
mod lengths;
#[cfg(test)]
mod loads;
#[cfg(test)]
mod rules;
