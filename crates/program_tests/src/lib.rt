//! The tests of the libraries of `drive` and `fiocut_node`, `targets` and `filters`, in a crate of their own, so that the
//! gate proves each library once.
#![tactic(auto)]

#[cfg(test)]
mod tests;
