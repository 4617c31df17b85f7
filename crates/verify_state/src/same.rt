//! Keys, jobs and words compared.

ghost use Rattle.std.specs.Prelude.{◌≡◌, bytes_eq};
ghost use Rattle.fc_base.specs.Keys.{is_same_key};
ghost use Rattle.verify_state.specs.Same.{is_of_kind, is_of_region, is_same_job};

use crate::writing::{kind_code, verify_code};
use fc_base::{JobRecord, Key};

pub(crate) fn is_same_key(a: &Key, b: &Key) -> bool
    ensures { result ≡ is_same_key a.now b.now }
{
    a.run.0 == b.run.0 && (a.server.0 == b.server.0 && a.job.0 == b.job.0)
}

pub(crate) fn is_of_kind(a: &JobRecord, b: &JobRecord) -> bool
    ensures { result ≡ is_of_kind a.now b.now }
{
    kind_code(a.kind()) == kind_code(b.kind())
        && verify_code(a.verify()) == verify_code(b.verify())
        && a.pattern() == b.pattern()
}

pub(crate) fn is_of_region(a: &JobRecord, b: &JobRecord) -> bool
    ensures { result ≡ is_of_region a.now b.now }
{
    a.bs() == b.bs() && a.blocks() == b.blocks() && a.total() == b.total() && a.seed() == b.seed()
}

pub(crate) fn are_equal(a: &[u64], b: &[u64]) -> bool
    ensures { result ≡ bytes_eq a.now b.now }
{
    a == b
}

pub(crate) fn is_same_job(a: &JobRecord, b: &JobRecord) -> bool
    ensures { result ≡ is_same_job a.now b.now }
{
    is_of_kind(a, b) && is_of_region(a, b) && (a.depth() == b.depth() && a.window() == b.window())
}
