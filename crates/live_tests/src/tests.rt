//! What no clause shows of nodes under locks, of threads, and of the commands that run them.

mod assemblies;
mod client_cells;
mod crews;
mod fleets;
mod nodes;
mod parallel;
mod server_cells;
mod subcommands;
