//! Reading a verify state.

ghost use Rattle.std.specs.Prelude.{◌≡◌, ◌+◌, ◌≤◌, length, IfSome, IfOk, IsTrue, Some, None, if◌then◌else◌};
ghost use Rattle.std.specs.Int.{w8, w32, w64};
ghost use Rattle.fc_base.specs.Keys.{is_key};
ghost use Rattle.verify_state.specs.Codes.{kind_of, verify_of};
ghost use Rattle.verify_state.specs.Reading.{field, words_at, key_in, job_in, place_in, is_layout_1, is_layout_2, has_codes, has_fields, has_ranges};
ghost use Rattle.verify_state.specs.Front.{front_in, Fronts};

use fc_base::{
    Fault, JobNo, JobParts, JobRecord, Key, Kind, MAX_WRITES, RunNo, ServerNo, Verify, split_u8,
    split_u32, split_u64,
};

/// The fewest bytes that a state has, in either layout.
const SHORTEST: usize = 100;

/// What both layouts have before the completions or the marks.
#[derive(Drop)]
pub(crate) struct Front {
    pub key: Key,
    pub rec: JobRecord,
    pub issued: u64,
    pub place: [u64; 4],
}

#[tactic(auto, unfolding(crate::specs::Reading::field))]
fn u8_at(bytes: &[u8], at: usize) -> u8
    requires { at + 1 ≤ length bytes.now }
    ensures { result ≡ field w8 at bytes.now }
{
    let (number, _) = split_u8(&bytes[at..]);
    number
}

#[tactic(auto, unfolding(crate::specs::Reading::field))]
pub(crate) fn u32_at(bytes: &[u8], at: usize) -> u32
    requires { at + 4 ≤ length bytes.now }
    ensures { result ≡ field w32 at bytes.now }
{
    let (number, _) = split_u32(&bytes[at..]);
    number
}

#[tactic(auto, unfolding(crate::specs::Reading::field))]
pub(crate) fn u64_at(bytes: &[u8], at: usize) -> u64
    requires { at + 8 ≤ length bytes.now }
    ensures { result ≡ field w64 at bytes.now }
{
    let (number, _) = split_u64(&bytes[at..]);
    number
}

/// Four numbers of eight bytes.
pub(crate) fn words_at(bytes: &[u8], at: usize) -> [u64; 4]
    requires { at + 32 ≤ length bytes.now }
    ensures { result ≡ words_at 4 at bytes.now }
{
    [
        u64_at(bytes, at),
        u64_at(bytes, at + 8),
        u64_at(bytes, at + 16),
        u64_at(bytes, at + 24),
    ]
}

fn kind_of(code: u8) -> Kind
    ensures { result ≡ kind_of code }
{
    match code {
        0 => Kind::Sequential,
        1 => Kind::RandomMap,
        _ => Kind::RandomFree,
    }
}

fn verify_of(code: u8) -> Verify
    ensures { result ≡ verify_of code }
{
    match code {
        0 => Verify::Stamp,
        _ => Verify::Pattern,
    }
}

fn key_in(bytes: &[u8]) -> Key
    requires { 100 ≤ length bytes.now }
    ensures { result ≡ key_in bytes.now }
{
    Key {
        run: RunNo(u64_at(bytes, 4)),
        server: ServerNo(u32_at(bytes, 12)),
        job: JobNo(u32_at(bytes, 16)),
    }
}

fn job_in(bytes: &[u8]) -> JobParts
    requires { 100 ≤ length bytes.now }
    ensures { result ≡ job_in bytes.now }
{
    JobParts {
        kind: kind_of(u8_at(bytes, 20)),
        verify: verify_of(u8_at(bytes, 21)),
        pattern: u8_at(bytes, 22),
        bs: u64::from(u32_at(bytes, 24)),
        blocks: u64::from(u32_at(bytes, 28)),
        total: u64_at(bytes, 32),
        seed: u64_at(bytes, 40),
        depth: u64::from(u32_at(bytes, 48)),
        window: u64::from(u32_at(bytes, 52)),
    }
}

fn place_in(bytes: &[u8]) -> [u64; 4]
    requires { 100 ≤ length bytes.now }
    ensures { result ≡ place_in bytes.now }
{
    words_at(bytes, 64)
}

fn has_codes(bytes: &[u8]) -> bool
    requires { 100 ≤ length bytes.now }
    ensures { result ≡ has_codes bytes.now }
{
    u8_at(bytes, 20) < 3 && u8_at(bytes, 21) < 2 && u8_at(bytes, 23) == 0
}

fn has_fields(bytes: &[u8]) -> bool
    requires { 100 ≤ length bytes.now }
    ensures { result ≡ has_fields bytes.now }
{
    has_codes(bytes) && key_in(bytes).is_key() && u64_at(bytes, 56) <= MAX_WRITES
}

/// Whether the bytes are of layout 1, which has a list of completions.
#[tactic(auto, unfolding(crate::specs::Reading::is_layout_1))]
pub(crate) fn is_layout_1(bytes: &[u8]) -> bool
    ensures { result ≡ is_layout_1 bytes.now }
{
    bytes.starts_with(b"FCV1")
}

/// Whether the bytes are of layout 2, which has marks.
#[tactic(auto, unfolding(crate::specs::Reading::is_layout_2))]
fn is_layout_2(bytes: &[u8]) -> bool
    ensures { result ≡ is_layout_2 bytes.now }
{
    bytes.starts_with(b"FCV2")
}

/// What stands up to the place, or `None` where a field is out of its range.
fn ranged(bytes: &[u8]) -> Option<Front>
    requires { 100 ≤ length bytes.now }
    ensures key { IfSome result (λ front. IsTrue (is_key front.key)) }
    ensures value { result ≡ (if has_ranges bytes.now then Some (front_in bytes.now) else None) }
{
    let rec = JobRecord::make(job_in(bytes))?;
    if !has_fields(bytes) {
        return None;
    }
    Some(Front {
        key: key_in(bytes),
        rec,
        issued: u64_at(bytes, 56),
        place: place_in(bytes),
    })
}

/// What stands up to the place, or the first fault there.
pub(crate) fn front_of(bytes: &[u8]) -> Result<Front, Fault>
    ensures value { Fronts result bytes.now }
    ensures long { IfOk result (λ _. SHORTEST ≤ length bytes.now) }
    ensures key { IfOk result (λ front. IsTrue (is_key front.key)) }
{
    if bytes.len() < SHORTEST {
        return Err(Fault::StateShort);
    }
    if !is_layout_1(bytes) && !is_layout_2(bytes) {
        return Err(Fault::StateBadMagic);
    }
    ranged(bytes).ok_or(Fault::StateBadField)
}
