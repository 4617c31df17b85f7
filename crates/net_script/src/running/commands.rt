//! Runs the commands of a script in its world.

ghost use Rattle.std.specs.Prelude.{◌≡◌, ◌+◌, ◌≤◌, [], ◌∷◌, ℕ, List, length, slice_get, IfOk, OnOk};
ghost use Rattle.std.specs.Option.{option_map};
ghost use Rattle.std.specs.Io.KnownBytes.{Appends};
ghost use Rattle.fc_base.specs.Fault.{sort_of};
ghost use Rattle.net_world.specs.Setup.{Setup};
ghost use Rattle.net_world.specs.Changes.{steps};
ghost use Rattle.net_world.specs.Frames.{frames_sent, to_of};
ghost use Rattle.net_world.specs.Happenings.{Happening};
ghost use Rattle.net_world.specs.World.{world as changes};
ghost use Rattle.net_world.specs.Stands.{StandsFor};
ghost use Rattle.net_world.specs.Ends.{Ends};
ghost use Rattle.program_io.specs.Words.{with_line_feed};
ghost use Rattle.net_script.specs.Orders.{Opens};
ghost use Rattle.net_script.specs.Commands.{happens};
ghost use Rattle.net_script.specs.Printed.{addressee, refusal_line};
ghost use Rattle.net_script.specs.Script.{are_commands, lines_in, lines_of_orders, reads_well, status_in, status_of_orders};
ghost use Rattle.net_script.specs.Runs.{RunOrders};
ghost use Rattle.net_script.specs.Left.{orders_left};
ghost use Rattle.net_script.specs.Running.{HasCome, refused_by};

use crate::command::{Command, Saving};
use crate::happening::event_of;
use crate::order::Order;
use crate::orders::Orders;
use crate::running::{FAULTS, NO_FAULTS, refuse_line};
use crate::told::{has_faults, write_told};
use fc_base::{Fault, FaultSort};
use messages::{Node, look_at};
use net_world::{Told, World, sent_are_frames};
use program_io::{PrintedRefusal, REFUSED};
use std::alloc::Global;
use std::io;
use std::io::Write;

/// What has come of a command.
#[derive(Clone, Copy)]
enum Ran {
    /// It was answered, maybe with a report that has faults.
    Answered { faults: bool },
    /// Memory ran out.
    Lacked,
}

/// Says that the world is made, and runs the orders behind `servers`.
pub(crate) fn run_opened<W: Write>(
    alloc: Global,
    world: &mut World,
    orders: &mut Orders,
    writer: &mut W,
) -> io::Result<u8>
    requires { orders.old.number + length orders.old.rest.now ≤ u64.MAX }
    ensures { (setup : Setup) → StandsFor setup [] world.old → (line : ℕ) →
        IfOk result (RunOrders lines_of_orders reads_well status_of_orders
        (Opens line setup ∷ orders_left orders.old)
        (W.contents writer.old) (W.contents writer.new)) }
{
    writeln!(writer, "ok")?;
    run_commands(alloc, world, orders, writer)
}

/// Runs the orders behind `servers`.
fn run_commands<W: Write>(
    alloc: Global,
    world: &mut World,
    orders: &mut Orders,
    writer: &mut W,
) -> io::Result<u8>
    requires { orders.old.number + length orders.old.rest.now ≤ u64.MAX }
    ensures { (setup : Setup) (before : List Happening) →
        StandsFor setup (changes setup before) world.old →
        IfOk result (RunOrders (lines_in setup before) are_commands (status_in setup before)
        (orders_left orders.old) (W.contents writer.old) (W.contents writer.new)) }
{
    let mut faults = false;
    while let Some(order) = orders.next() {
        match order {
            Order::Asks { command, text, .. } => {
                match run_command(alloc, world, &command, text, writer)? {
                    Ran::Answered { faults: more } => faults = faults || more,
                    Ran::Lacked => return Ok(REFUSED),
                }
            }
            Order::Opens { line, .. } | Order::Fails { at: line, .. } => {
                return refuse_line(writer, line);
            }
        }
    }
    Ok(if faults { FAULTS } else { NO_FAULTS })
}

/// Runs a command, and writes its lines.
fn run_command<W: Write>(
    alloc: Global,
    world: &mut World,
    command: &Command,
    text: &[u8],
    writer: &mut W,
) -> io::Result<Ran>
    ensures { (setup : Setup) (before : List Happening) →
        StandsFor setup (changes setup before) world.old →
        IfOk result (HasCome setup before (happens command.now text.now) world.new
        (W.contents writer.old) (W.contents writer.new)) }
{
    sent_are_frames();
    let addressee = addressee_of(world, command, text);
    match apply(alloc, world, command, text) {
        Ok(told) => {
            write_told(writer, &told, world.frames(), addressee)?;
            Ok(Ran::Answered {
                faults: has_faults(&told.answer),
            })
        }
        Err(fault) => refuse(writer, fault),
    }
}

/// Answers a command that is refused.
fn refuse<W: Write>(writer: &mut W, fault: Fault) -> io::Result<Ran>
    ensures text { OnOk result
        (Appends (W.contents writer.old) (W.contents writer.new)
        (with_line_feed (refusal_line fault))) }
    ensures ran { IfOk result (λ ran. ran ≡ refused_by (sort_of fault)) }
{
    writeln!(writer, "{}", PrintedRefusal::from(fault))?;
    Ok(match fault.sort() {
        FaultSort::Memory => Ran::Lacked,
        _ => Ran::Answered { faults: false },
    })
}

/// Makes happen what a command asks for.
fn apply(alloc: Global, world: &mut World, command: &Command, text: &[u8]) -> Result<Told, Fault>
    ensures { (setup : Setup) (before : List Happening) →
        StandsFor setup (changes setup before) world.old →
        Ends setup (changes setup before) (happens command.now text.now) world.new result }
{
    match event_of(alloc, command, text) {
        Ok(event) => world.apply(&event),
        Err(_) => Err(Fault::NoMemory),
    }
}

/// The node to which the frame comes that is delivered.
fn addressee_of(world: &World, command: &Command, text: &[u8]) -> Option<Node>
    ensures { (setup : Setup) (before : List Happening) →
        StandsFor setup (changes setup before) world.now →
        result ≡ addressee setup (changes setup before) (happens command.now text.now) }
{
    match command {
        Command::Saves(Saving::Deliver(frame)) => receiver(world, *frame),
        _ => None,
    }
}

/// The node that a frame is for.
fn receiver(world: &World, frame: u64) -> Option<Node>
    ensures { (setup : Setup) (before : List Happening) →
        StandsFor setup (changes setup before) world.now →
        result ≡ option_map to_of
        (slice_get (frames_sent setup (steps (changes setup before))) frame) }
{
    sent_are_frames();
    let bytes = world.frames().get(frame as usize)?;
    let look = look_at(bytes)?;
    Some(look.to)
}
