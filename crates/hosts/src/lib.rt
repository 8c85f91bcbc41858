// What the hosts share: the words of rows, and what is wrong with rows that make no host.

#![tactic(auto)]

pub mod row_word;
