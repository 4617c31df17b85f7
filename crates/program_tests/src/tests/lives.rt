//! What no clause shows of `filters`: lives of a server, of the client and of a mirror to the byte, and inputs that
//! aren't lives.

mod client;
mod draft;
mod ends;
mod ends_of_attempts;
mod flushes;
mod frames;
mod heads;
mod mirror;
mod mirror_frames;
mod mirrored;
mod prefixes;
mod refusals;
mod rows;
mod server;
mod shared;
mod words;
