//! What is printed of each fault of a ledger, by the table in the manual.

use ledger::LedgerFault;
use std::test::Fail;

static PRINTED: [(LedgerFault, u8, &str); 11] = [
    (LedgerFault::Short, 100, "Short"),
    (LedgerFault::Damaged, 101, "Damaged"),
    (LedgerFault::NoLedger, 102, "NoLedger"),
    (LedgerFault::TooManyBlocks, 103, "TooManyBlocks"),
    (LedgerFault::BadBlockSize, 104, "BadBlockSize"),
    (LedgerFault::BadRun, 105, "BadRun"),
    (LedgerFault::Impossible, 106, "Impossible"),
    (LedgerFault::OtherSpelling, 107, "OtherSpelling"),
    (LedgerFault::TooLong, 108, "TooLong"),
    (LedgerFault::OtherPlace, 109, "OtherPlace"),
    (LedgerFault::NoMemory, 35, "NoMemory"),
];

#[test]
fn numbers_and_names_of_faults(rt: HostRuntime) -> Result<(), Fail> {
    for (row, (fault, number, name)) in PRINTED.iter().enumerate() {
        if fault.number() != *number || fault.name() != *name {
            return Err(Fail::new(row));
        }
    }
    Ok(())
}
