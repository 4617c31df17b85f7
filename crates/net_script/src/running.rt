//! Runs a script.

ghost use Rattle.std.specs.Prelude.{◌≡◌, ◌≤◌, ◌+◌, ◌∷◌, ℕ, length, IfOk, OnOk, IfSome};
ghost use Rattle.std.specs.Io.KnownBytes.{Appends};
ghost use Rattle.fc_base.specs.declared.limits.TheConstants.{MAX_SERVERS};
ghost use Rattle.net_world.specs.Setup.{setup_of};
ghost use Rattle.net_script.specs.Left.{orders_left};
ghost use Rattle.program_io.specs.Words.{with_line_feed};
ghost use Rattle.net_script.specs.Orders.{Opens, orders_of};
ghost use Rattle.net_script.specs.Printed.{bad_line, refusal_line};
ghost use Rattle.net_script.specs.Script.{lines_of_orders, reads_well, status_of_orders};
ghost use Rattle.net_script.specs.Runs.{Runs, HasRun, RunOrders};

mod commands;

use crate::order::Order;
use crate::orders::Orders;
use crate::output::BadLine;
use crate::running::commands::run_opened;
use crate::script_fault::ScriptFault;
use fc_base::Fault;
use net_world::{Config, World};
use program_io::{PrintedRefusal, REFUSED, read_input};
use std::alloc::Global;
use std::io;
use std::io::{Read, Write};

/// The most bytes of a script.
pub const MAX_SCRIPT: usize = 1_048_576;

/// The most calls of `read`.
const MAX_READS: u32 = 2_000_000;

/// The exit status where no report has faults, and where one has.
const NO_FAULTS: u8 = 0;

const FAULTS: u8 = 1;

/// Runs the script on a reader, and writes its lines.
///
/// The whole script is read before anything runs: at most 1,048,576 bytes, in at most 2,000,000 reads. A
/// longer one is answered by `too long`, and nothing of it runs. Each command is answered by its lines as
/// soon as it has run; a writer that keeps them, as a `BufWriter` does, is flushed at the end.
///
/// The status is 0; 1 where a report has faults; 2 where a line is bad, where the script is too long, and
/// where memory runs out at a command, which is then answered by `refused 35 NoMemory` and is the last.
///
/// `ReadError` and `NoMemory`: the script could not be read, and nothing is written. `WriteError`: a write
/// failed, and no more is written.
pub fn run_script<R: Read, W: Write>(
    alloc: Global,
    reader: &mut R,
    writer: &mut W,
) -> Result<u8, ScriptFault>
    ensures { IfSome (R.remaining reader.old)
        (λ script. Runs script (W.contents writer.old) (W.contents writer.new) result) }
{
    let script = read_input(alloc, reader, MAX_SCRIPT + 1, MAX_READS)?;
    let status = answer(alloc, script.as_slice(), writer)?;
    writer.flush()?;
    Ok(status)
}

/// Answers a script of which at least the front was read that shows whether it is too long.
fn answer<W: Write>(alloc: Global, script: &[u8], writer: &mut W) -> io::Result<u8>
    ensures { IfOk result (HasRun script.now (W.contents writer.old) (W.contents writer.new)) }
{
    if script.len() > MAX_SCRIPT {
        writer.write_all(b"too long\n")?;
        return Ok(REFUSED);
    }
    run_text(alloc, script, writer)
}

/// Runs a script that isn't too long.
fn run_text<W: Write>(alloc: Global, script: &[u8], writer: &mut W) -> io::Result<u8>
    requires { length script.now ≤ MAX_SCRIPT }
    ensures { IfOk result
        (RunOrders lines_of_orders reads_well status_of_orders (orders_of script.now)
        (W.contents writer.old) (W.contents writer.new)) }
{
    let mut orders = Orders::of(script);
    match orders.next() {
        None => Ok(NO_FAULTS),
        Some(Order::Opens { line: _, config }) => open_world(alloc, config, &mut orders, writer),
        Some(Order::Asks { line, .. }) | Some(Order::Fails { line, .. }) => {
            refuse_line(writer, line)
        }
    }
}

/// Makes the world that is asked for, and runs the orders behind `servers` in it.
fn open_world<W: Write>(
    alloc: Global,
    config: Config,
    orders: &mut Orders,
    writer: &mut W,
) -> io::Result<u8>
    requires some { 1 ≤ config.servers }
    requires few { config.servers ≤ MAX_SERVERS }
    requires room { orders.old.number + length orders.old.rest.now ≤ u64.MAX }
    ensures { (line : ℕ) → IfOk result (RunOrders lines_of_orders reads_well status_of_orders
        (Opens line (setup_of config) ∷ orders_left orders.old) (W.contents writer.old)
        (W.contents writer.new)) }
{
    match World::new(alloc, config) {
        Ok(mut world) => run_opened(alloc, &mut world, orders, writer),
        Err(_) => refuse_world(writer),
    }
}

/// Answers that there is no memory for a world.
fn refuse_world<W: Write>(writer: &mut W) -> io::Result<u8>
    ensures text { OnOk result (Appends (W.contents writer.old) (W.contents writer.new)
        (with_line_feed (refusal_line Fault.NoMemory))) }
    ensures status { IfOk result (λ status. status ≡ 2) }
{
    writeln!(writer, "{}", PrintedRefusal::from(Fault::NoMemory))?;
    Ok(REFUSED)
}

/// Answers a bad line.
fn refuse_line<W: Write>(writer: &mut W, line: u64) -> io::Result<u8>
    ensures text { OnOk result (Appends (W.contents writer.old) (W.contents writer.new)
        (with_line_feed (bad_line line))) }
    ensures status { IfOk result (λ status. status ≡ 2) }
{
    writeln!(writer, "{}", BadLine(line))?;
    Ok(REFUSED)
}
