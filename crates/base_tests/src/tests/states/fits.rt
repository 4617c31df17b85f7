//! Which jobs a state fits.

use super::vectors::{OPEN_WRITE, OPEN_WRITE_JOB, ROWS};
use super::{Fail, Global, JobParts, JobRecord, VerifyState, changed, key_of, says};
use fc_base::{Fault, Key, ServerNo};

/// A server and the settings of its job, and why the state of the open write doesn't fit it, or nothing.
struct Fit {
    server: u32,
    job: JobParts,
    misfit: Option<Fault>,
}

/// The state's own job.
const OWN: Fit = Fit {
    server: 0,
    job: OPEN_WRITE_JOB,
    misfit: None,
};

static FITS: [Fit; 5] = [
    OWN,
    Fit {
        job: JobParts {
            depth: 1,
            ..OPEN_WRITE_JOB
        },
        ..OWN
    },
    Fit {
        job: JobParts {
            bs: 1_024,
            ..OPEN_WRITE_JOB
        },
        misfit: Some(Fault::OtherJob),
        ..OWN
    },
    Fit {
        job: JobParts {
            seed: 2,
            ..OPEN_WRITE_JOB
        },
        misfit: Some(Fault::OtherJob),
        ..OWN
    },
    Fit {
        server: 1,
        misfit: Some(Fault::OtherKey),
        ..OWN
    },
];

/// Whether the state of these bytes fits a job, or doesn't, as its row has it.
fn fits(bytes: &[u8], fit: &Fit) -> bool {
    let (Ok(state), Some(job)) = (VerifyState::decode(bytes), JobRecord::make(fit.job)) else {
        return false;
    };
    let key = Key {
        server: ServerNo(fit.server),
        ..key_of(&ROWS[OPEN_WRITE])
    };
    state.fits(key, &job).err() == fit.misfit
}

#[test]
fn fit_of_other_settings(_rt: HostRuntime) -> Result<(), Fail> {
    for (at, fit) in FITS.iter().enumerate() {
        if !fits(ROWS[OPEN_WRITE].bytes, fit) {
            return Err(Fail::new(at));
        }
    }
    Ok(())
}

/// The state elsewhere, by one bit of the place.
static ELSEWHERE: Fit = Fit {
    misfit: Some(Fault::OtherPlace),
    ..OWN
};

/// Whether two states are the same, by their bytes.
fn are_same(one: &[u8], other: &[u8]) -> Option<bool> {
    let other = VerifyState::decode(other).ok()?;
    Some(says(one, &other))
}

/// Whether the state of these bytes with another bit of its place doesn't fit, and is another.
fn is_elsewhere(alloc: Global, bytes: &[u8]) -> Option<bool> {
    let elsewhere = changed(alloc, bytes, 95, 0xd7)?;
    let same = are_same(&elsewhere, bytes)?;
    Some(fits(&elsewhere, &ELSEWHERE) && !same)
}

#[test]
fn one_bit_of_the_place(rt: HostRuntime) {
    assert!(rt; is_elsewhere(rt.alloc(), ROWS[OPEN_WRITE].bytes) == Some(true));
}
