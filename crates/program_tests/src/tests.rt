//! What no clause shows of the programs' libraries, `targets` and `filters`, of the inputs that `targets` reads by
//! `program_io`, and of those that these tests read.

mod drive;
mod fakes;
mod lives;
mod reads;
