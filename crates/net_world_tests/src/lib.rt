//! The tests of `net_world` and of `net_script`, in a crate of their own, so that the gate proves each library
//! once, and loads what is below them once for all these tests.
#![tactic(auto)]

#[cfg(test)]
mod tests;
