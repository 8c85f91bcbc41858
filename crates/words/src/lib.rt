// Script words: kinds and numbers, read and written. What a script stands for, a tree, and the words of each tree are
// defined in specs/.

#![tactic(auto)]

pub mod word;
