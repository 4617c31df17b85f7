//! The tests of nodes under locks and of threads, of `cells`, `assembly`, `fleet_threads` and `node_threads`, and those of `commands`. They stand in one crate of their own, so that the gate
//! proves each library once, and loads what is below them once for all these tests.
#![tactic(auto)]

#[cfg(test)]
mod tests;
