//! Lemmas on lists for all crates above: elements by their places in lists that are joined, pushed to, cut, written to and mapped; and
//! lemmas on options and results. There is no code. One definition is here: `IsFirst`, the first number of which something holds.
#![tactic(auto)]
