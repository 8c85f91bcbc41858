// What is proved of the words of trees, for the scans and the checker: no code. The theorems are named by the contracts
// of `end_of` and `check`.

#![tactic(auto)]
