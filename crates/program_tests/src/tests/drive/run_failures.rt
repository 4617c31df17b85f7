//! A run that finds no memory. It tells something where one of its allocations is refused.

use super::inputs::Tell::*;
use super::inputs::{TWO_BLOCKS, input_of};
use super::stamps::RUN;
use fake_io::{page_with, source_of};
use fc_base::{JobNo, RunNo};
use std::alloc::Global;
use std::io::BufReader;
use std::test::Fail;
use targets::write_job;

/// How many bytes two orders and a state have.
const OUTPUT: usize = 2 * 528 + 136;

/// Whether a run is answered whole, or else refused for want of memory before its first order, so that
/// no write was made; or the output itself has none. What the test asks for may be missing, too.
fn stands_want(alloc: Global) -> bool {
    let Ok(input) = input_of(alloc, TWO_BLOCKS, &[Take]) else {
        return true;
    };
    let Ok(mut reader) = BufReader::new(alloc, source_of(&input)) else {
        return true;
    };
    let mut page = page_with(alloc, usize::MAX);
    let answer = write_job(alloc, RunNo(RUN), JobNo(0), &mut reader, &mut page);
    let text = page.text.as_slice();
    match answer {
        Ok(0) => text.len() == OUTPUT,
        Ok(2) => {
            text == b"refused 12 NoMemory\n".as_slice()
                || text == b"refused 35 NoMemory\n".as_slice()
        }
        Ok(_) => false,
        Err(_) => text.len() < OUTPUT,
    }
}

#[test]
fn want_of_memory_of_a_run(rt: HostRuntime) -> Result<(), Fail> {
    if stands_want(rt.alloc()) {
        Ok(())
    } else {
        Err(Fail::new("want of memory"))
    }
}
