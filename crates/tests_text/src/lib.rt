//! Tests of `meta_text` that no contract and no stored run replaces.
#![tactic(auto)]

#[cfg(test)]
mod adapters;
#[cfg(test)]
mod expect;
#[cfg(test)]
mod faults;
#[cfg(test)]
mod lines;
