//! What is said of a range of indices, for the contracts of others: tests at some index, what is collected, and tables that
//! hold a value at each index. There is no code here.
#![tactic(auto)]
