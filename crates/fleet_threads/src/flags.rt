//! What the threads of a fleet tell each other.

use crate::fault::FleetFault;
use fc_base::{Fault, RunNo};
use std::sync::atomic::{AtomicBool, Ordering};
use std::sync::{Mutex, Wait};

/// What the threads of a fleet tell each other. Each flag is set once, and stays.
#[derive(Drop)]
pub(crate) struct Flags {
    start: AtomicBool,
    stop: AtomicBool,
    has_worked: AtomicBool,
    /// The errand has failed, and no thread had before.
    is_given_up: AtomicBool,
    fault: Mutex<Option<Fault>>,
}

impl Flags {
    /// Nothing was told yet.
    pub fn new() -> Flags {
        Flags {
            start: AtomicBool::new(false),
            stop: AtomicBool::new(false),
            has_worked: AtomicBool::new(false),
            is_given_up: AtomicBool::new(false),
            fault: Mutex::new(None),
        }
    }

    /// The workers may start.
    pub fn start(&self) {
        self.start.store(true, Ordering::SeqCst);
    }

    pub fn has_started(&self) -> bool {
        self.start.load(Ordering::SeqCst)
    }

    /// Nothing more is asked of anyone: the post ends once no frame waits, and workers that haven't
    /// started won't.
    pub fn stop(&self) {
        self.stop.store(true, Ordering::SeqCst);
    }

    pub fn has_stopped(&self) -> bool {
        self.stop.load(Ordering::SeqCst)
    }

    /// The errand has ended so, and with it the fleet.
    pub fn stop_after<R: Wait>(&self, rt: &R, ended: &Result<RunNo, FleetFault>) {
        if ended.is_err() && self.fault(rt).is_none() {
            self.is_given_up.store(true, Ordering::SeqCst);
        }
        self.stop();
    }

    /// How the errand has ended; or, unless it failed first, the fault with which a thread has.
    pub fn or_fault<R: Wait>(
        &self,
        rt: &R,
        ended: Result<RunNo, FleetFault>,
    ) -> Result<RunNo, FleetFault> {
        if self.has_given_up() {
            return ended;
        }
        match self.fault(rt) {
            Some(fault) => Err(FleetFault::Refused(fault)),
            None => ended,
        }
    }

    /// The flag that stops the post.
    pub fn stop_flag(&self) -> &AtomicBool {
        &self.stop
    }

    /// All workers are done.
    pub fn work_ends(&self) {
        self.has_worked.store(true, Ordering::SeqCst);
    }

    pub fn has_worked(&self) -> bool {
        self.has_worked.load(Ordering::SeqCst)
    }

    fn has_given_up(&self) -> bool {
        self.is_given_up.load(Ordering::SeqCst)
    }

    /// The errand has failed, or a thread.
    pub fn has_failed<R: Wait>(&self, rt: &R) -> bool {
        self.has_given_up() || self.fault(rt).is_some()
    }

    /// A thread has ended with this fault. The first is kept.
    pub fn fail<R: Wait>(&self, rt: &R, fault: Fault) {
        let mut first = self.fault.lock(rt);
        if first.is_none() {
            *first = Some(fault);
        }
    }

    /// The first fault with which a thread has ended.
    pub fn fault<R: Wait>(&self, rt: &R) -> Option<Fault> {
        *self.fault.lock(rt)
    }
}
