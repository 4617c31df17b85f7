//! The order in which a job writes its blocks.

ghost use Rattle.std.specs.Prelude.{◌≡◌, ◌≢◌, ◌+◌, ◌<◌, ◌≤◌, IfOk, IfSome, IsOk};
ghost use Rattle.write_order.specs.Places.{place};
ghost use Rattle.write_order.specs.Progress.{next_block};

use crate::pass::Pass;
use crate::words::Words;
use fc_base::{JobRecord, Kind};
use std::alloc::{AllocError, Global};
use std::marker::Model;

/// How the block of the next write is found.
#[derive(Drop)]
enum Chooser {
    InTurn,
    WithMap(Pass),
    WithoutMap,
}

/// The writes of a job in their order: which block the next one goes to, and the place of the
/// generator before it.
///
/// A sequential job goes to its blocks in turn (fio's manual, I/O type: `rw`). A random one takes
/// one word of xoshiro256++ a write, seeded with the job's seed (`randseed`), and picks with it
/// from the blocks that its pass has left, or from all of them (`norandommap`). Which block a word
/// picks is this project's own rule.
pub struct Order {
    rec: JobRecord,
    issued: u64,
    words: Words,
    chooser: Chooser,
}

/// By hand, so that the crates above need no proof of it.
impl Drop for Order {
    fn drop(self) {
        let Order {
            rec: _,
            issued: _,
            words: _,
            chooser: _,
        } = self;
    }
}

impl Model for Order {
    ghost use Rattle.write_order.specs.Progress.{Progress};
    ghost use Rattle.write_order.specs.UnderWay.{IsUnderWay};

    ghost Value = { Progress };

    ghost view = { λ o. record { job = o.rec; issued = o.issued } };

    ghost invariant = { IsUnderWay };
}

impl Order {
    /// The order of this job before its first write. Only a random job with a map takes memory: 4
    /// bytes for each of its blocks. None of the other calls takes any.
    pub fn new(alloc: Global, rec: &JobRecord) -> Result<Order, AllocError>
        ensures start { IfOk result (λ o. o ≡ record { job = rec.now; issued = 0 }) }
        ensures without_map { rec.now.kind ≢ Kind.RandomMap → IsOk result }
    {
        let chooser = match rec.kind() {
            Kind::Sequential => Chooser::InTurn,
            Kind::RandomMap => Chooser::WithMap(Pass::new(alloc, rec.blocks())?),
            Kind::RandomFree => Chooser::WithoutMap,
        };
        Ok(Order {
            rec: *rec,
            issued: 0,
            words: Words::new(rec.seed()),
            chooser,
        })
    }

    /// The block of the next write, or `None` when all writes of the job were issued.
    pub fn peek(&self) -> Option<u32>
        ensures value { result ≡ next_block self.now }
        ensures range { IfSome result (λ block. block < self.now.job.blocks) }
    {
        if self.issued == self.rec.total() {
            return None;
        }
        let blocks = u64::from(self.rec.blocks());
        let word = self.words.first();
        Some(match &self.chooser {
            Chooser::InTurn => (self.issued % blocks) as u32,
            Chooser::WithMap(pass) => pass.pick(word),
            Chooser::WithoutMap => (word % blocks) as u32,
        })
    }

    /// Goes on by one write, which there has to be: `peek` is not `None`.
    pub fn advance(&mut self)
        requires { self.old.issued < self.old.job.total }
        ensures { self.new ≡ record self.old { issued = self.old.issued + 1 } }
    {
        match &mut self.chooser {
            Chooser::InTurn => {}
            Chooser::WithMap(pass) => {
                pass.advance(self.words.first());
                self.words.advance();
            }
            Chooser::WithoutMap => self.words.advance(),
        }
        self.issued += 1;
    }

    /// The place of the generator after the writes that were issued, whatever was peeked: the next
    /// four words, of which a random order uses the first for its next write. That of a sequential
    /// order never changes.
    pub fn place(&self) -> [u64; 4]
        ensures { result ≡ place self.now.job self.now.issued }
    {
        self.words.place()
    }

    /// How many writes were issued, which is also the number of the next write.
    pub fn issued(&self) -> u64
        ensures value { result ≡ self.now.issued }
        ensures range { result ≤ self.now.job.total }
    {
        self.issued
    }
}

/// The place of a job's generator after its first `n` writes, also past the job's end. It takes no
/// memory, and as many steps as there are writes.
pub fn place_of(rec: &JobRecord, n: u64) -> [u64; 4]
    ensures { result ≡ place rec.now n }
{
    let mut words = Words::new(rec.seed());
    if rec.kind() != Kind::Sequential {
        for _ in 0..n {
            words.advance();
        }
    }
    words.place()
}
