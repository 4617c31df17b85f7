//! The orders of a script, one after the other.

ghost use Rattle.std.specs.Prelude.{◌≡◌, ◌⊎◌, ◌+◌, ◌<◌, ◌≤◌, ⊤, [], ◌∷◌, ◌++◌, true, false, length, MatchOption, if◌then◌else◌};
ghost use Rattle.std.specs.List.{list_any, position_or_len};
ghost use Rattle.net_script.specs.Words.{is_line_feed, lines_of};
ghost use Rattle.program_io.specs.Words.{with_line_feed};
ghost use Rattle.net_script.specs.Orders.{Asks, closes, text_in, with_text, has_text_in, has_text, orders_from, orders_of};

use crate::command::{Command, Saving};
use crate::line::ScriptLine;
use crate::order::Order;
use crate::table::line_of;

/// The lines of a script that are not read yet.
#[derive(Clone, Copy)]
pub(crate) struct Orders<'a> {
    rest: &'a [u8],
    /// The number of the next line.
    number: u64,
}

impl<'a> Orders<'a> {
    ghost use Rattle.net_script.specs.Left.{as_order, orders_left, OpensFew};

    /// The orders of a script.
    pub(crate) fn of(script: &'a [u8]) -> Orders<'a>
        ensures orders { orders_left result ≡ orders_of script.now }
        ensures rest { result.rest.now ≡ script.now }
        ensures number { result.number ≡ 1 }
    {
        Orders {
            rest: script,
            number: 1,
        }
    }

    /// The next order, `None` behind the last.
    pub(crate) fn next(&mut self) -> Option<Order<'a>>
        requires { self.old.number + length self.old.rest.now ≤ u64.MAX }
        ensures orders { MatchOption result (orders_left self.old ≡ [])
            (λ order. orders_left self.old ≡ as_order order ∷ orders_left self.new) }
        ensures shorter { MatchOption result ⊤
            (λ order. length self.new.rest.now < length self.old.rest.now) }
        ensures few { OpensFew result }
        ensures number { self.new.number + length self.new.rest.now ≤ u64.MAX }
    {
        while !self.rest.is_empty() {
            let number = self.number;
            let line = self.take_line();
            match line_of(line) {
                ScriptLine::Skipped => {}
                ScriptLine::Servers(config) => {
                    return Some(Order::Opens {
                        line: number,
                        config,
                    });
                }
                ScriptLine::Asks(command) => return Some(self.asked(number, command)),
                ScriptLine::Unread => {
                    return Some(Order::Fails {
                        line: number,
                        at: number,
                    });
                }
            }
        }
        None
    }

    /// The order of the command on the line with this number, which has been taken.
    fn asked(&mut self, line: u64, command: Command) -> Order<'a>
        requires room { self.old.number + length self.old.rest.now ≤ u64.MAX }
        requires above { self.old.number ≡ line + 1 }
        ensures order { as_order result ∷ orders_left self.new
            ≡ (if has_text command then with_text line command
            (lines_of self.old.rest.now) else Asks line command []) ∷ orders_from (line + 1)
            (has_text command) (lines_of self.old.rest.now) }
        ensures shorter { length self.new.rest.now ≤ length self.old.rest.now }
        ensures number { self.new.number + length self.new.rest.now ≤ u64.MAX }
    {
        if !has_text(&command) {
            return Order::Asks {
                line,
                command,
                text: &[],
            };
        }
        match self.take_text() {
            Some(text) => Order::Asks {
                line,
                command,
                text,
            },
            None => Order::Fails {
                line,
                at: self.number - 1,
            },
        }
    }

    /// Takes the lines of a text and the one that closes it. `None` where none does; all lines are taken
    /// then.
    fn take_text(&mut self) -> Option<&'a [u8]>
        requires { self.old.number + length self.old.rest.now ≤ u64.MAX }
        ensures text { MatchOption result (list_any closes (lines_of self.old.rest.now) ≡ false)
            (λ text. (list_any closes (lines_of self.old.rest.now) ≡ true)
            × (text_in (lines_of self.old.rest.now) ≡ text.now)) }
        ensures last { MatchOption result
            (self.new.number ≡ self.old.number + length (lines_of self.old.rest.now)) (λ _. ⊤) }
        ensures orders { orders_from self.old.number true (lines_of self.old.rest.now)
            ≡ orders_left self.new }
        ensures shorter { length self.new.rest.now ≤ length self.old.rest.now }
        ensures number { self.new.number + length self.new.rest.now ≤ u64.MAX }
    {
        let below = self.rest;
        while !self.rest.is_empty() {
            let len = below.len() - self.rest.len();
            let line = self.take_line();
            if is_closing(line) {
                return Some(&below[..len]);
            }
        }
        None
    }

    /// Takes a line.
    fn take_line(&mut self) -> &'a [u8]
        requires some { 0 < length self.old.rest.now }
        requires room { self.old.number + length self.old.rest.now ≤ u64.MAX }
        ensures lines { lines_of self.old.rest.now ≡ result.now ∷ lines_of self.new.rest.now }
        ensures bytes { (self.old.rest.now ≡ with_line_feed result.now ++ self.new.rest.now)
            ⊎ (self.new.rest.now ≡ []) }
        ensures shorter { length self.new.rest.now < length self.old.rest.now }
        ensures number { self.new.number ≡ self.old.number + 1 }
    {
        let (line, rest) = first_line(self.rest);
        self.rest = rest;
        self.number += 1;
        line
    }
}

/// The first line without its end, and what stands behind it.
fn first_line(script: &[u8]) -> (&[u8], &[u8])
    requires { 0 < length script.now }
    ensures lines { lines_of script.now ≡ result.0.now ∷ lines_of result.1.now }
    ensures bytes { (script.now ≡ with_line_feed result.0.now ++ result.1.now)
        ⊎ (result.1.now ≡ []) }
    ensures shorter { length result.1.now < length script.now }
{
    let len = line_len(script);
    if len < script.len() {
        (&script[..len], &script[len + 1..])
    } else {
        (script, &[])
    }
}

/// How many bytes stand before the first line feed.
fn line_len(script: &[u8]) -> usize
    ensures value { result ≡ position_or_len is_line_feed script.now }
    ensures bound { result ≤ length script.now }
{
    script.iter().take_while(|byte| **byte != b'\n').count()
}

/// Whether this line closes a text.
fn is_closing(line: &[u8]) -> bool
    ensures { result ≡ closes line.now }
{
    line == b".".as_slice()
}

/// Whether a text stands below the command.
fn has_text(command: &Command) -> bool
    ensures { result ≡ has_text command.now }
{
    match command {
        Command::Saves(command) => has_text_in(command),
        Command::CutShort { command, .. } => has_text_in(command),
        _ => false,
    }
}

/// Whether a text stands below this command, which may save.
fn has_text_in(command: &Saving) -> bool
    ensures { result ≡ has_text_in command.now }
{
    matches!(command, Saving::Begin | Saving::Verify(_))
}
