//! The verify state of a job.

ghost use Rattle.std.specs.Prelude.{◌≡◌, ◌≤◌, ◌↔◌, ◌++◌, true, [], IfOk, IfErr, OnOk, IsTrue, Some, length, slice_get, bytes_eq, string_bytes};
ghost use Rattle.fc_base.specs.Counted.{has};
ghost use Rattle.fc_base.specs.Keys.{is_key};
ghost use Rattle.verify_state.specs.State.{has_come_by, field_faults, field_faults_by, state_of, state_by, floor_in, marks_in as marks_of, IsState, IsSame};
ghost use Rattle.verify_state.specs.Same.{is_same};
ghost use Rattle.verify_state.specs.Label.{label};
ghost use Rattle.verify_state.specs.Spelling.{spelling};
ghost use Rattle.verify_state.specs.Misfit.{Fits};
ghost use Rattle.verify_state.specs.Reading.{Answers};

use crate::counting;
use crate::label::label as label_of;
use crate::layouts::{LENGTH, marks_in};
use crate::misfit::check_fit;
use crate::ranges::{are_in_range, has_counts, in_range, run_in_range};
use crate::reading::{Front, front_of};
use crate::same::{are_equal, is_same_job, is_same_key};
use crate::writing::{put_job, put_key, put_words};
use fc_base::{Fault, JobRecord, Key, MAX_WRITES, Marks, Seq, put_u64};
use std::alloc::{AllocError, Global};
use std::marker::Model;

/// What a state's bytes begin with.
const MAGIC: &[u8] = b"FCV2";

/// What a trigger takes of a job (fio's manual, "Verification and triggers": the write state):
/// whose it is, what it writes, how many writes were issued, where the generator stands, and which
/// writes had completed by then. All below its [`floor`](VerifyState::floor) had, since the window
/// holds a write back until they have; of the numbers from the floor on, which are at most a
/// window, the [`marks`](VerifyState::marks) tell. A state is a plain value: it is taken, copied and
/// compared without memory.
#[derive(Clone, Copy, Debug)]
pub struct VerifyState {
    key: Key,
    rec: JobRecord,
    issued: u64,
    place: [u64; 4],
    marks: Marks,
}

impl Model for VerifyState {
    ghost use Rattle.verify_state.specs.State.{State};

    ghost Value = { State };

    ghost use Rattle.verify_state.specs.Inside.{state_of_fields, fields_of, fields_again, IsKept};

    ghost view = { state_of_fields };

    ghost invariant = { IsKept };

    ghost inverse = { fields_of };

    ghost inverse_ok = { fields_again };
}

impl VerifyState {
    /// The state of these fields, with a list of completions instead of marks. A run, server or job
    /// that can't be, more than a million writes issued, or a list longer than two windows is
    /// [`Fault::StateBadField`]; a list and a number issued to which no job can have come is
    /// [`Fault::Impossible`]. The list is handed back beside the fault.
    pub fn make(
        key: Key,
        rec: &JobRecord,
        issued: u64,
        place: [u64; 4],
        completions: Vec<Seq>,
    ) -> Result<VerifyState, (Fault, Vec<Seq>)>
        ensures made { IfOk result (λ s. s ≡ state_of key rec.now issued place completions.items) }
        ensures sound { IfOk result (λ _. field_faults key rec.now issued completions.items ≡ []) }
        ensures refused { IfErr result
            (λ e. (slice_get (field_faults key rec.now issued completions.items) 0 ≡ Some e.0)
            × (e.1.items ≡ completions.items)) }
    {
        let window = rec.window();
        if !key.is_key() || !has_counts(window, issued, completions.len() as u64) {
            return Err((Fault::StateBadField, completions));
        }
        if !counting::has_come(rec, issued, &completions) {
            return Err((Fault::Impossible, completions));
        }
        let marks = counting::marks_of(window, issued, &completions);
        Ok(VerifyState::with_marks(key, rec, issued, place, marks))
    }

    /// The state of these fields. Bit `i % 64` of word `i / 64`, the lowest bit first, says that
    /// write `floor + i` had completed, where the floor is `issued - window`, or 0. A run, server
    /// or job that can't be, or more than a million writes issued, is [`Fault::StateBadField`];
    /// marks and a number issued to which no job can have come is [`Fault::Impossible`].
    pub fn make_marked(
        key: Key,
        rec: &JobRecord,
        issued: u64,
        place: [u64; 4],
        marks: [u64; 4],
    ) -> Result<VerifyState, Fault>
        ensures made { IfOk result (λ s. s ≡ state_by key rec.now issued place marks) }
        ensures sound { IfOk result (λ _. field_faults_by key rec.now issued marks ≡ []) }
        ensures refused { IfErr result (λ fault.
            slice_get (field_faults_by key rec.now issued marks) 0 ≡ Some fault) }
    {
        if !key.is_key() || issued > MAX_WRITES {
            return Err(Fault::StateBadField);
        }
        let marks = Marks::from_words(marks);
        if !counting::has_come_by(rec, issued, &marks) {
            return Err(Fault::Impossible);
        }
        Ok(VerifyState::with_marks(key, rec, issued, place, marks))
    }

    /// The state of fields that are known to be in their ranges.
    fn with_marks(
        key: Key,
        rec: &JobRecord,
        issued: u64,
        place: [u64; 4],
        marks: Marks,
    ) -> VerifyState
        requires key { IsTrue (is_key key) }
        requires come { IsTrue (has_come_by rec.now issued marks) }
        ensures { result ≡ state_by key rec.now issued place marks }
    {
        let _words = marks.words();
        VerifyState {
            key,
            rec: *rec,
            issued,
            place,
            marks,
        }
    }

    /// The job that it was taken of.
    pub fn key(&self) -> Key
        ensures value { result ≡ self.now.key }
        ensures range { IsTrue (is_key result) }
    {
        self.key
    }

    /// The record of that job.
    pub fn rec(&self) -> JobRecord
        ensures { result ≡ self.now.job }
    {
        self.rec
    }

    /// How many writes were issued.
    #[tactic(auto, unfolding(crate::specs::State::has_come_by))]
    pub fn issued(&self) -> u64
        ensures value { result ≡ self.now.issued }
        ensures range { result ≤ self.now.job.total }
    {
        self.issued
    }

    /// The next four words of the generator, after as many writes.
    pub fn place(&self) -> [u64; 4]
        ensures { result ≡ self.now.place }
    {
        self.place
    }

    /// The first number of the last window of those issued: all writes below it had completed.
    pub fn floor(&self) -> u64
        ensures { result ≡ floor_in self.now }
    {
        counting::floor_of(self.rec.window(), self.issued)
    }

    /// Which writes from the floor on had completed: bit `i % 64` of word `i / 64`, the lowest bit
    /// first, says it of write `floor + i`.
    pub fn marks(&self) -> [u64; 4]
        ensures { result ≡ marks_of self.now }
    {
        self.marks.words()
    }

    /// How many of the issued writes had completed.
    pub fn completed(&self) -> u64
        ensures { result ≡ length self.now.counted }
    {
        counting::completed(self.rec.window(), self.issued, &self.marks)
    }

    /// Whether this write had completed.
    pub fn counts(&self, seq: Seq) -> bool
        ensures { result ≡ has self.now.counted seq }
    {
        counting::counts(self.rec.window(), self.issued, &self.marks, seq)
    }

    /// Whether the two states are the same: key, record, number issued, place, and which writes had
    /// completed.
    #[tactic(auto, unfolding(crate::specs::Same::is_same))]
    pub fn same(&self, other: &VerifyState) -> bool
        ensures value { result ≡ is_same self.now other.now }
        ensures same { (result ≡ true) ↔ IsSame self.now other.now }
    {
        is_same_key(&self.key, &other.key)
            && is_same_job(&self.rec, &other.rec)
            && (self.issued == other.issued
                && are_equal(&self.place, &other.place)
                && self.counts_alike(other))
    }

    /// Whether two states, of one window and as many writes issued, count the same writes.
    fn counts_alike(&self, other: &VerifyState) -> bool
        requires window { self.now.job.window ≡ other.now.job.window }
        requires issued { self.now.issued ≡ other.now.issued }
        ensures { result ≡ bytes_eq self.now.counted other.now.counted }
    {
        counting::counts_alike(self.rec.window(), self.issued, &self.marks, &other.marks)
    }

    /// Whether the state is one of this job: [`Fault::OtherKey`] for another run, server or job;
    /// [`Fault::OtherJob`] where kind, verify, pattern, block size, blocks, writes or seed differ,
    /// or more writes were issued than the job has; [`Fault::OtherPlace`] where the generator
    /// doesn't stand where it stands after as many writes of the job. Depth and window may differ:
    /// a job that reads has its own.
    pub fn fits(&self, key: Key, rec: &JobRecord) -> Result<(), Fault>
        ensures { Fits self.now key rec.now result }
    {
        check_fit(self, &key, rec)
    }

    /// The name under which it is stored: `s0-a-0-verify.state` for job 0, named `a`, of server 0.
    pub fn label(&self, alloc: Global, name: &str) -> Result<String, AllocError>
        ensures { IfOk result (λ text. string_bytes text ≡ label self.now.key name.now) }
    {
        label_of(alloc, &self.key, name)
    }

    /// A state equal to this one. It takes no memory.
    pub fn copy(&self) -> VerifyState
        ensures { result ≡ self.now }
    {
        *self
    }

    /// The bytes of the state, layout 2 of this profile: 136 of them.
    pub fn encode(&self, alloc: Global) -> Result<Vec<u8>, AllocError>
        ensures spelling { IfOk result (λ bytes. bytes.items ≡ spelling self.now) }
        ensures len { IfOk result (λ bytes. length bytes.items ≡ LENGTH) }
    {
        self.keeps_its_ranges();
        let mut bytes = Vec::with_capacity(alloc, LENGTH)?;
        self.push_to(&mut bytes)?;
        Ok(bytes)
    }

    /// Adds the bytes of the state, layout 2, to others. Where memory runs out, some may be there.
    #[tactic(auto, unfolding(crate::specs::Spelling::spelling))]
    pub fn push_to(&self, bytes: &mut Vec<u8>) -> Result<(), AllocError>
        ensures { OnOk result (bytes.new.items ≡ bytes.old.items ++ spelling self.now) }
    {
        bytes.extend_from_slice(MAGIC)?;
        put_key(bytes, &self.key)?;
        put_job(bytes, &self.rec)?;
        put_u64(bytes, self.issued)?;
        put_words(bytes, &self.place)?;
        put_u64(bytes, self.floor())?;
        put_words(bytes, &self.marks.words())?;
        Ok(())
    }

    /// The state that these bytes are, in layout 1 or 2, without memory; or the first fault, in
    /// this order: fewer than 100 bytes ([`Fault::StateShort`]), another magic than the two
    /// layouts' ([`Fault::StateBadMagic`]), a field out of its range ([`Fault::StateBadField`]),
    /// fewer bytes than the layout asks for, more ([`Fault::StateTrailing`]), completions or marks
    /// to which no job can have come ([`Fault::Impossible`]).
    pub fn decode(bytes: &[u8]) -> Result<VerifyState, Fault>
        ensures { Answers result bytes.now }
    {
        let front = front_of(bytes)?;
        let marks = marks_in(&front, bytes)?;
        let Front {
            key,
            rec,
            issued,
            place,
        } = front;
        Ok(VerifyState::with_marks(key, &rec, issued, place, marks))
    }

    /// The ranges that every state keeps, and that some job can have come to it. Nothing runs.
    pub fn keeps_its_ranges(&self)
        ensures { IsState self.now }
    {
        let _limits = self.rec.parts();
        let _pattern = self.rec.pattern();
        let _seed = in_range(self.rec.seed());
        run_in_range(&self.key);
        are_in_range(&self.place);
    }
}
