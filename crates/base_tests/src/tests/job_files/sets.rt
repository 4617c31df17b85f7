//! Notes, copies of a section, and jobs that share a file.

use super::{assert_answer, assert_answers, phase_and_count};
use job_file::Phase;

#[test]
fn options_without_effect(rt: HostRuntime) {
    let text =
        b"[global]\ndirect=1\n[a]\nsize=4k\nnumjobs=2\n thread \ngroup_reporting=\n[global]\ndescription=x = y\ndo_verify=0\nserialize_overlap\nioengine=io_uring\n";
    let notes_and_jobs = "\
2 direct
6 thread
7 group_reporting
9 description
10 do_verify
11 serialize_overlap
12 ioengine
a Sequential 1 1 4096 1 1 1 Stamp 0 true false false -
a Sequential 1 1 4096 2 1 1 Stamp 0 true false false -
";
    assert_answer(&rt, text, notes_and_jobs);
}

#[test]
fn copies_and_shared_files(rt: HostRuntime) {
    let refused = "\
[a]|rw=write|size=4k|numjobs=2|filename=f| => SharedFile(JobNo(1))
[a]|size=4k|numjobs=17| => TooManyJobs
[global]|numjobs=18446744073709551615|[a]|[b]| => TooManyJobs
[global]|size=4k|[a]|numjobs=9|[b]|numjobs=8| => TooManyJobs
[global]|filename=f|size=4k|[a]|[b]| => SharedFile(JobNo(1))
[global]|size=4k|[a]|filename=f|[b]|filename=g|[c]|filename=f| => SharedFile(JobNo(2))
[a]|size=4k|numjobs=2|[b]|numjobs=2| => NoSize(JobNo(2))
[a]|size=4k|filename=f|[b]|filename=f|size=1| => OutOfLimits(JobNo(1))
[global]|filename=f|size=4k|[a]|rw=write|[b]| => SharedFile(JobNo(1))
";
    assert_answers(&rt, "", refused);
    let sixteen = b"[global]\nsize=4k\n[a]\nnumjobs=8\n[b]\nnumjobs=8";
    assert!(rt; phase_and_count(rt.alloc(), sixteen) == Some((Phase::Read, 16)));
}
