//! The tests of one job's libraries, from `fc_base` and `job_file` up to `recheck` and `ledger`, and of frames and
//! their network, of `messages` and `hub`, in one crate of their own, so that the gate proves each library once, and loads
//! what is below them once for all these tests.
#![tactic(auto)]

#[cfg(test)]
mod tests;
