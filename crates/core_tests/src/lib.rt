//! The tests of the cores, of `server_core`, `client_core` and `mirror_core`, and of the notes of `node`, in one
//! crate of their own, so that the gate proves each library once, and loads what is below them once for all
//! these tests.
#![tactic(auto)]

#[cfg(test)]
mod tests;
