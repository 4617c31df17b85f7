//! What holds of the jobs of every text, and of some texts. The functions have nothing to run.

ghost use Rattle.job_file.specs.Laws.{JobsAreWithinLimits, JobsFit};
ghost use Rattle.std.specs.Prelude.{◌≡◌, [], ◌∷◌, map, codes, Some};
ghost use Rattle.job_file.specs.JobSet.{jobs_of, refusal_of};

use crate::fault::JobFault;

/// A text that is not refused has a job, at most [`MAX_JOBS`](fc_base::MAX_JOBS), and each is
/// within the limits of a job's record.
pub fn jobs_are_within_limits()
    ensures { JobsAreWithinLimits }
{}

/// The seeds and patterns of a text's jobs fit into their widths.
pub fn jobs_fit()
    ensures { JobsFit }
{}

/// A global section counts for the jobs below it alone, and a job's own line counts before it. Each
/// line is checked before any job is: line 3 is refused, though job 0 has no size.
pub fn examples()
    ensures below { map (λ job. job.rec.bs)
        (jobs_of (codes "[global]\nbs=1k\nsize=8k\n[a]\n[global]\nbs=512\n[b]\n[c]\nbs=4k\n"))
        ≡ 1024 ∷ 512 ∷ 4096 ∷ [] }
    ensures line_first { refusal_of (codes "[a]\nbs=4k\nsizes=8k\n")
        ≡ Some (JobFault.UnknownOption 3) }
    ensures then_job { refusal_of (codes "[a]\nbs=4k\n") ≡ Some (JobFault.NoSize 0) }
{}
