//! The places that an attempt asks for.

ghost use Rattle.std.specs.Prelude.{◌≡◌, ◌≢◌, List, [], IfOk, OnOk};
ghost use Rattle.std.specs.Option.{option_copied};
ghost use Rattle.job_file.specs.declared.fault.JobFault.TheVariants.{NoMemory};
ghost use Rattle.client_core.specs.History.{Opening};
ghost use Rattle.client_core.specs.Words.{words_noted, shown_entries};
ghost use Rattle.client_core.specs.Hearing.{FrameEntry, packets_heard};
ghost use Rattle.client_core.specs.FrameEnds.{StandsFor};
ghost use Rattle.attempt_ends.specs.Asked.{jobs_read, asked_in, place_asked, places_asked};

use crate::lists::push_if_any;
use crate::place::{PLACES, Place};
use client_core::Client;
use disk_model::Notes;
use fc_base::RunNo;
use job_file::{Job, JobFault, Jobs, parse};
use std::alloc::{AllocError, Global};
use std::marker::Model;

/// A place that an attempt asks for, and whether its check there is by a state: its job loads one,
/// and one of its key was kept when the attempt was made.
#[derive(Clone, Copy, Debug)]
pub struct AskedPlace {
    pub place: Place,
    pub by_state: bool,
}

/// The places that an attempt asks for, ascending.
pub struct AskedPlaces {
    places: Vec<AskedPlace>,
}

/// By hand, so that the crates above need no proof of it.
impl Drop for AskedPlaces {
    fn drop(self) {
        let AskedPlaces { places: _ } = self;
    }
}

impl Model for AskedPlaces {
    ghost use Rattle.std.specs.Prelude.{List};
    ghost use Rattle.attempt_ends.specs.declared.asked.AskedPlace.{AskedPlace};

    ghost Value = { List AskedPlace };

    ghost view = { λ a. a.places.items };
}

impl AskedPlaces {
    /// What is asked for at this place, if anything is.
    pub fn at(&self, place: &Place) -> Option<&AskedPlace>
        ensures { option_copied result ≡ asked_in place.now self.now }
    {
        self.places.iter().find(|asked| place.is_same(&asked.place))
    }
}

/// The places that an attempt would ask for which this client made now, of so many servers, to
/// verify a run by this job file. A text that is refused has no jobs.
pub fn places_asked<N: Notes>(
    alloc: Global,
    client: &Client<N>,
    servers: u32,
    run: RunNo,
    text: &[u8],
) -> Result<AskedPlaces, AllocError>
    ensures { (opening : Opening) (past : List FrameEntry) →
        StandsFor N.note client.now opening past →
        IfOk result (λ places. places ≡ places_asked servers run text.now
        (words_noted opening (shown_entries (packets_heard opening past))).kept) }
{
    let jobs = jobs_read(alloc, text)?;
    let mut places = Vec::new(alloc);
    for number in 0..PLACES {
        let asked = place_asked(
            client,
            servers,
            run,
            jobs.as_slice(),
            Place::numbered(number),
        );
        push_if_any(&mut places, asked)?;
    }
    Ok(AskedPlaces { places })
}

/// The jobs of a text, none where it is refused.
fn jobs_read(alloc: Global, text: &[u8]) -> Result<Jobs, AllocError>
    ensures { IfOk result (λ jobs. jobs ≡ jobs_read text.now) }
{
    match parse(alloc, text) {
        Ok(set) => Ok(set.jobs),
        Err(fault) => no_jobs(alloc, fault),
    }
}

/// No jobs, but where memory was wanting.
fn no_jobs(alloc: Global, fault: JobFault) -> Result<Jobs, AllocError>
    ensures none { IfOk result (λ jobs. jobs ≡ []) }
    ensures refused { OnOk result (fault ≢ NoMemory) }
{
    match fault {
        JobFault::NoMemory => Err(AllocError),
        _ => Ok(Jobs::from_vec(Vec::new(alloc))),
    }
}

/// What is asked for at a place, of so many servers with these jobs.
fn place_asked<N: Notes>(
    client: &Client<N>,
    servers: u32,
    run: RunNo,
    jobs: &[Job],
    place: Place,
) -> Option<AskedPlace>
    ensures { (opening : Opening) (past : List FrameEntry) →
        StandsFor N.note client.now opening past →
        result ≡ place_asked servers run jobs.now
        (words_noted opening (shown_entries (packets_heard opening past))).kept place }
{
    if place.server.0 >= servers {
        return None;
    }
    let job = jobs.get(place.job.0 as usize)?;
    let is_kept = client.saved(place.key(run)).is_some();
    Some(AskedPlace {
        place,
        by_state: job.load && is_kept,
    })
}
