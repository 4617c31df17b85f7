//! How an attempt ended, place by place.

ghost use Rattle.std.specs.Prelude.{◌≡◌, ◌≤◌, List, IfOk, length};
ghost use Rattle.std.specs.Option.{option_copied};
ghost use Rattle.client_core.specs.History.{Opening};
ghost use Rattle.client_core.specs.Words.{shown_entries};
ghost use Rattle.client_core.specs.Hearing.{FrameEntry, packets_heard};
ghost use Rattle.client_core.specs.FrameEnds.{StandsFor};
ghost use Rattle.attempt_ends.specs.declared.place.TheConstants.{PLACES};
ghost use Rattle.client_core.specs.Life.{life};
ghost use Rattle.client_core.specs.Outcomes.{outcome};
ghost use Rattle.client_core.specs.Reports.{reports};
ghost use Rattle.client_core.specs.declared.outcome.RequestKind.TheVariants.{Verify};
ghost use Rattle.attempt_ends.specs.Asked.{asked_in};
ghost use Rattle.attempt_ends.specs.Attempts.{attempt_of, attempts_made};
ghost use Rattle.attempt_ends.specs.AttemptEnds.{ends_told};
ghost use Rattle.attempt_ends.specs.PlaceEnds.{is_report_of, report_of, asked_end, unasked_end, made_end, unmade_end, end_at, at_place, ends};

use crate::asked::AskedPlaces;
use crate::attempts::Attempts;
use crate::lists::push_if_any;
use crate::place::{PLACES, Place};
use crate::place_end::PlaceEnd;
use client_core::{Client, Outcome, Received, RequestKind};
use disk_model::Notes;
use fc_base::{Attempt, RunNo};
use std::alloc::{AllocError, Global};
use std::marker::Model;

/// A place, and how an attempt ended there.
#[derive(Clone, Copy, Debug)]
pub struct EndAt {
    pub place: Place,
    pub end: PlaceEnd,
}

/// How an attempt ended at each place, ascending.
pub struct Ends {
    ends: Vec<EndAt>,
}

/// By hand, so that the crates above need no proof of it.
impl Drop for Ends {
    fn drop(self) {
        let Ends { ends: _ } = self;
    }
}

impl Model for Ends {
    ghost use Rattle.std.specs.Prelude.{List};
    ghost use Rattle.attempt_ends.specs.declared.ends.EndAt.{EndAt};

    ghost Value = { List EndAt };

    ghost view = { λ e. e.ends.items };
}

impl Ends {
    /// The ends, in their order.
    pub fn as_slice(&self) -> &[EndAt]
        ensures { result.now ≡ self.now }
    {
        &self.ends
    }
}

/// How this attempt of a run ended, as its client knows it, which has made these attempts in its
/// life: at each place of which a state of the run is kept, and at each place that the attempt asks
/// for, where it is one of these and verifies this run.
pub fn ends_of<N: Notes>(
    alloc: Global,
    client: &Client<N>,
    attempts: &Attempts,
    run: RunNo,
    attempt: Attempt,
) -> Result<Ends, AllocError>
    ensures ends { (opening : Opening) (past : List FrameEntry) →
        StandsFor N.note client.now opening past →
        attempts.now.made ≡ attempts_made opening (packets_heard opening past) →
        IfOk result (λ told. told
        ≡ ends_told opening (shown_entries (packets_heard opening past)) run attempt) }
    ensures few { IfOk result (λ told. length told ≤ PLACES) }
{
    let mut told = Vec::new(alloc);
    for number in 0..PLACES {
        let place = Place::numbered(number);
        let end = end_at(client, attempts, run, attempt, &place);
        push_if_any(&mut told, at_place(place, end))?;
    }
    Ok(Ends { ends: told })
}

/// The end at a place, if there is one.
fn at_place(place: Place, end: Option<PlaceEnd>) -> Option<EndAt>
    ensures { result ≡ at_place place end }
{
    match end {
        Some(end) => Some(EndAt { place, end }),
        None => None,
    }
}

/// How an attempt ended at a place, if it is one of its places.
fn end_at<N: Notes>(
    client: &Client<N>,
    attempts: &Attempts,
    run: RunNo,
    attempt: Attempt,
    place: &Place,
) -> Option<PlaceEnd>
    ensures { (opening : Opening) (past : List FrameEntry) →
        StandsFor N.note client.now opening past →
        result ≡ end_at (attempt_of run attempt attempts.now.made) opening
        (shown_entries (packets_heard opening past)) run attempt place.now }
{
    let is_kept = client.saved(place.key(run)).is_some();
    match attempts.of(run, attempt) {
        Some(made) => made_end(client, &made.asked, attempt, place, is_kept),
        None => unmade_end(is_kept),
    }
}

/// How an attempt that wasn't made ended at a place.
fn unmade_end(is_kept: bool) -> Option<PlaceEnd>
    ensures { result ≡ unmade_end is_kept }
{
    if is_kept {
        Some(PlaceEnd::Unanswered)
    } else {
        None
    }
}

/// How an attempt that asks for these places ended at a place, if it asks for that, or a state is
/// kept of it.
fn made_end<N: Notes>(
    client: &Client<N>,
    asked: &AskedPlaces,
    attempt: Attempt,
    place: &Place,
    is_kept: bool,
) -> Option<PlaceEnd>
    ensures { (opening : Opening) (past : List FrameEntry) →
        StandsFor N.note client.now opening past →
        result ≡ made_end (asked_in place.now asked.now) is_kept
        (outcome opening (shown_entries (packets_heard opening past)) Verify attempt place.now.server)
        (report_of attempt place.now
        (reports (life opening (shown_entries (packets_heard opening past))))) }
{
    let outcome = client.outcome(RequestKind::Verify, attempt.0, place.server);
    match asked.at(place) {
        Some(asked) => Some(asked_end(client, attempt, place, asked.by_state, outcome)),
        None => unasked_end(is_kept, outcome),
    }
}

/// How an attempt ended at a place that it asks for.
fn asked_end<N: Notes>(
    client: &Client<N>,
    attempt: Attempt,
    place: &Place,
    by_state: bool,
    outcome: Outcome,
) -> PlaceEnd
    ensures { (opening : Opening) (past : List FrameEntry) →
        StandsFor N.note client.now opening past →
        result ≡ asked_end by_state outcome (report_of attempt place.now
        (reports (life opening (shown_entries (packets_heard opening past))))) }
{
    match report_of(client.reports(), attempt, place) {
        Some(received) => PlaceEnd::by_report(by_state, &received.report),
        None => PlaceEnd::Unanswered.or_refused(outcome),
    }
}

/// How an attempt ended at a place that it doesn't ask for.
fn unasked_end(is_kept: bool, outcome: Outcome) -> Option<PlaceEnd>
    ensures { result ≡ unasked_end is_kept outcome }
{
    if is_kept {
        Some(PlaceEnd::Unasked.or_refused(outcome))
    } else {
        None
    }
}

/// The report of this attempt and place, if one has come.
fn report_of<'a>(reports: &'a [Received], attempt: Attempt, place: &Place) -> Option<&'a Received>
    ensures { option_copied result ≡ report_of attempt place.now reports.now }
{
    reports
        .iter()
        .find(|received| is_report_of(attempt, place, received))
}

/// Whether this is the report of this attempt and place.
fn is_report_of(attempt: Attempt, place: &Place, received: &Received) -> bool
    ensures { result ≡ is_report_of attempt place.now received.now }
{
    received.attempt == attempt && received.server == place.server && received.job == place.job
}
