//! What no clause shows of `targets`: the orders, states, maps and reports behind recorded inputs, and inputs that are
//! refused, fail or find no memory.

mod checks;
mod flushes;
mod inputs;
mod ledger_bytes;
mod ledger_failures;
mod ledger_inputs;
mod ledger_maps;
mod ledger_refusals;
mod ledger_servers;
mod ledger_unread;
mod ledgers;
mod map_differences;
mod map_failures;
mod map_inputs;
mod map_kinds;
mod map_servers;
mod map_units;
mod maps;
mod run_failures;
mod runs;
mod stamps;
mod tour_failures;
mod tour_inputs;
mod tour_tiles;
mod tours;
mod wanted;
mod wanted_failures;
mod wanted_inputs;
mod words;
