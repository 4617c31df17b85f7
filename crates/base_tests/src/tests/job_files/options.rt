//! Every option: at its default, at its ends, and past them.

use super::{assert_answer, assert_answers, assert_same_answer, phase_and_count};
use job_file::Phase;

/// The job to which the lines of a table are added.
const START: &str = "[a]|size=4k|bs=512|";

#[test]
fn options_in_one_text(rt: HostRuntime) {
    let text =
        b"[global]\nrw=randwrite\nioengine=libaio\nbs=4k\nsize=16k\nio_size=20k\niodepth=2\nx_window=3\nverify=crc32c\n[r]\nnumjobs=2\nnorandommap\nverify_fatal\nverify_state_save=0\n";
    let note_and_jobs = "\
3 ioengine
r RandomFree 4 5 4096 1 2 3 Stamp 0 false false true -
r RandomFree 4 5 4096 2 2 3 Stamp 0 false false true -
";
    assert_answer(&rt, text, note_and_jobs);
    assert!(rt; phase_and_count(rt.alloc(), text) == Some((Phase::Write, 2)));
}

#[test]
fn options_at_their_ends(rt: HostRuntime) {
    let jobs = "\
io_size=0|number_ios=0 => a Sequential 8 8 512 1 1 1 Stamp 0 true false false -
io_size=700 => a Sequential 8 1 512 1 1 1 Stamp 0 true false false -
io_size=5k => a Sequential 8 10 512 1 1 1 Stamp 0 true false false -
number_ios=7 => a Sequential 8 7 512 1 1 1 Stamp 0 true false false -
number_ios=9 => a Sequential 8 8 512 1 1 1 Stamp 0 true false false -
io_size=1g|number_ios=1000000 => a Sequential 8 1000000 512 1 1 1 Stamp 0 true false false -
iodepth=64 => a Sequential 8 8 512 1 64 64 Stamp 0 true false false -
iodepth=2|x_window=256 => a Sequential 8 8 512 1 2 256 Stamp 0 true false false -
randseed=18446744073709551615 => a Sequential 8 8 512 18446744073709551615 1 1 Stamp 0 true false false -
rw=randread => a RandomMap 8 8 512 1 1 1 Stamp 0 true false false -
rw=randread|norandommap=1 => a RandomFree 8 8 512 1 1 1 Stamp 0 true false false -
rw=read|norandommap => a Sequential 8 8 512 1 1 1 Stamp 0 true false false -
verify_pattern=0Xa5 => a Sequential 8 8 512 1 1 1 Stamp 0 true false false -
verify=pattern|verify_pattern=0xff => a Sequential 8 8 512 1 1 1 Pattern 255 true false false -
verify=pattern|verify_pattern=0x0 => a Sequential 8 8 512 1 1 1 Pattern 0 true false false -
filename=/dev/a b=c => a Sequential 8 8 512 1 1 1 Stamp 0 true false false /dev/a b=c
 => a Sequential 8 8 512 1 1 1 Stamp 0 true false false -
";
    assert_answers(&rt, START, jobs);
}

#[test]
fn options_past_their_ends(rt: HostRuntime) {
    let lines = "\
io_size=511
io_size=1g
iodepth=0
iodepth=65
x_window=0
x_window=257
iodepth=3|x_window=2
verify=pattern
size=32m|bs=511
size=33554944
";
    assert_same_answer(&rt, (START, ""), lines, "OutOfLimits(JobNo(0))");
}

#[test]
fn values_that_options_do_not_take(rt: HostRuntime) {
    let lines = "\
numjobs=0
verify=md4
verify=
verify
verify_pattern=ff
verify_pattern=0x
verify_pattern=0x100
verify_pattern=0x0ff
verify_pattern=0xg
filename
filename=
io_size
x_window=-1
rw=trim
";
    assert_same_answer(&rt, (START, ""), lines, "BadValue(4)");
}

#[test]
fn switches(rt: HostRuntime) {
    let jobs = "\
verify_state_save|verify_state_load|verify_fatal => a Sequential 8 8 512 1 1 1 Stamp 0 true true true -
verify_state_save=1|verify_state_load=1|verify_fatal=1 => a Sequential 8 8 512 1 1 1 Stamp 0 true true true -
verify_state_save=0|verify_state_load=0|verify_fatal=0 => a Sequential 8 8 512 1 1 1 Stamp 0 false false false -
 => a Sequential 8 8 512 1 1 1 Stamp 0 true false false -
";
    assert_answers(&rt, START, jobs);
}

#[test]
fn values_that_switches_do_not_take(rt: HostRuntime) {
    let names = "\
norandommap
verify_fatal
verify_state_save
verify_state_load
";
    for end in ["=", "=2", "=01", "=0x1", "=yes"] {
        assert_same_answer(&rt, (START, end), names, "BadValue(4)");
    }
}

#[test]
fn names_of_checksums(rt: HostRuntime) {
    let names = "\
verify=md5
verify=crc64
verify=crc32c
verify=crc32c-intel
verify=crc32
verify=crc16
verify=crc7
verify=xxhash
verify=sha512
verify=sha256
verify=sha1
verify=meta
";
    let job = "a Sequential 8 8 512 1 1 1 Stamp 0 true false false -";
    assert_same_answer(&rt, (START, ""), names, job);
}
