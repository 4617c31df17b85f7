//! Servers are cut off, and started again where they ask for it.

ghost use Rattle.std.specs.Prelude.{◌≡◌, length};

use cells::{Receipt, Seat, ServerCell, ServerTask};
use disk_model::{MemDisk, Notes};
use fc_base::Fault;
use std::sync::{Mutex, Wait};
use std::thread;

/// How often a server is cut off for which there is no memory.
const CUTS: u32 = 1_000_000;

/// Cuts a server off and starts it again: its files are off from before its cut until it has started,
/// and then take writes of the new boot alone.
pub(crate) fn cut<R: Wait, N: Notes + Drop>(
    rt: &R,
    server: &Mutex<ServerCell<N>>,
    seat: &mut Seat,
    files: &[Mutex<MemDisk>],
) -> Result<(), Fault> {
    turn_off(rt, files);
    let boot = start_again(&mut server.lock(rt), seat)?;
    turn_on(rt, files, boot);
    Ok(())
}

/// Cuts all servers off, and turns their files off before. A worker that waits for a write of another
/// then ends, whatever has become of that one.
pub(crate) fn cut_all<R: Wait, N: Notes + Drop>(
    rt: &R,
    servers: &[Mutex<ServerCell<N>>],
    seats: &mut [Seat],
    files: &[Vec<Mutex<MemDisk>>],
)
    requires seats { length seats.old ≡ length servers.now }
    requires files { length files.now ≡ length servers.now }
{
    for i in 0..servers.len() {
        turn_off(rt, &files[i]);
        cut_off(rt, &servers[i], &mut seats[i]);
    }
}

/// Cuts a server off, unless it is off already. Where there is no memory for that, it tries again, at most
/// [`CUTS`] times: a server that then is still on refuses its workers' requests for want of memory, too.
fn cut_off<R: Wait, N: Notes + Drop>(rt: &R, server: &Mutex<ServerCell<N>>, seat: &mut Seat) {
    for _ in 0..CUTS {
        let cut = done(server.lock(rt).apply(seat, ServerTask::Cut));
        if cut != Err(Fault::NoMemory) {
            return;
        }
        thread::yield_now();
    }
}

fn turn_off<R: Wait>(rt: &R, files: &[Mutex<MemDisk>]) {
    for file in files {
        file.lock(rt).cut();
    }
}

fn turn_on<R: Wait>(rt: &R, files: &[Mutex<MemDisk>], boot: u64) {
    for file in files {
        file.lock(rt).power_on(boot);
    }
}

/// The server loses its power and is started again. Its new boot.
fn start_again<N: Notes + Drop>(cell: &mut ServerCell<N>, seat: &mut Seat) -> Result<u64, Fault> {
    done(cell.apply(seat, ServerTask::Cut))?;
    done(cell.apply(seat, ServerTask::Restart))?;
    match cell.server() {
        Some(server) => Ok(server.status().boot),
        None => Err(Fault::NodeOff),
    }
}

/// That it was done, and no more.
fn done(answer: Result<Receipt, Fault>) -> Result<(), Fault> {
    match answer {
        Ok(_) => Ok(()),
        Err(fault) => Err(fault),
    }
}
