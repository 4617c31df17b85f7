//! What programs read, within bounds, and what they print of a refusal, of a report and of a bad
//! command line.
//!
//! ```text
//! let bytes = read_input(alloc, &mut reader, 16_385, 1_000)?;
//! write_refusal(&mut writer, PrintedRefusal::from(fault))?;     // refused 91 ReadError
//! write_report_words(&mut writer, &report)?;             // checked 2 faults 1 end whole first 1
//! ```
//!
//! Begin with `input`, of which `specs/Input.antt` says which bytes are read, and with
//! `specs/Refusals.antt` and `specs/Reports.antt`.
#![tactic(auto)]

mod input;
mod law;
mod number;
mod refusal;
mod report;
mod words;

pub use input::{InputFault, fill, read_input};
pub use law::read_law;
pub use number::is_number;
pub use refusal::{PrintedRefusal, write_refusal};
pub use report::write_report_words;
pub use words::{REFUSED, refuse_words};
