//! What no clause shows of the cores: their stories, and in `shared` what takes a core through its own.

mod client;
mod durable;
mod mirror;
mod server;
mod shared;
