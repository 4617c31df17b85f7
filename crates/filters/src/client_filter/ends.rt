//! What is written of how an attempt ended.

ghost use Rattle.std.specs.Prelude.{◌≡◌, Some};
ghost use Rattle.filters.specs.declared.kinds.InRecordKind.TheVariants as told;
ghost use Rattle.filters.specs.ClientLives.{TakesKind, TellsEnds};
ghost use Rattle.filters.specs.ClientRuns.{FilterIsAt};
ghost use Rattle.filters.specs.Steps.{AnswersBy};

use super::ClientFilter;
use crate::asking::{EndsAsked, ends_in};
use crate::ending::put_ends;
use crate::output::Output;
use crate::writing::put_end;
use attempt_ends::ends_of;
use fc_base::Fault;

impl ClientFilter {
    /// Writes how the attempt ended that a body names.
    pub(super) fn tell_ends<W: Output>(&self, body: &[u8], writer: &mut W)
        ensures { AnswersBy (λ opening at now answer.
            TakesKind opening at (Some told.Ends) body.now now answer)
            (FilterIsAt self.now) (FilterIsAt self.now)
            (W.written writer.old) (W.written writer.new) }
    {
        match ends_in(body) {
            Some(asked) => self.tell_ends_of(&asked, writer),
            None => put_end(writer, Err(Fault::BadNotice)),
        }
    }

    /// Writes how an attempt ended, or that memory is wanting.
    fn tell_ends_of<W: Output>(&self, asked: &EndsAsked, writer: &mut W)
        ensures { AnswersBy (λ opening at now answer.
            TellsEnds opening at (Some asked.now) now answer)
            (FilterIsAt self.now) (FilterIsAt self.now)
            (W.written writer.old) (W.written writer.new) }
    {
        let told = ends_of(
            self.alloc,
            &self.client,
            &self.attempts,
            asked.run,
            asked.attempt,
        );
        match told {
            Ok(ends) => {
                put_ends(writer, asked, ends.as_slice());
                put_end(writer, Ok(()));
            }
            Err(_) => put_end(writer, Err(Fault::NoMemory)),
        }
    }
}
