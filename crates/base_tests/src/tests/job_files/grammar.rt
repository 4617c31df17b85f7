//! Texts, lines, sections and numbers.

use super::{assert_answer, assert_answers, assert_same_answer, phase_and_count};
use job_file::Phase;
use std::test::Fail;

#[test]
fn later_global_section(rt: HostRuntime) {
    let text = b"[global]\nrw=write\nsize=4k\nbs=512\n[a]\n[global]\nbs=1k\n[b]\nsize=8k\n";
    let jobs = "\
a Sequential 8 8 512 1 1 1 Stamp 0 true false false -
b Sequential 8 8 1024 2 1 1 Stamp 0 true false false -
";
    assert_answer(&rt, text, jobs);
    assert!(rt; phase_and_count(rt.alloc(), text) == Some((Phase::Write, 2)));
}

#[test]
fn spellings_of_4096(rt: HostRuntime) {
    let spellings = "\
4096
4096b
4k
4K
4kb
4KB
0x1000
0X00001000
";
    let job = "a Sequential 256 256 4096 1 1 1 Stamp 0 true false false -";
    assert_same_answer(&rt, ("[a]|size=1m|bs=", ""), spellings, job);
}

#[test]
fn values_that_are_no_numbers(rt: HostRuntime) {
    let values = "\
4ki

k
b
0x
0x1000k
4 k
4.5k
-1
+1
4bk
1t
18446744073709551616
18014398509481984k
";
    assert_same_answer(&rt, ("[a]|bs=", "|size=1m|"), values, "BadValue(2)");
}

/// Numbers that are read, and are then past a limit or no size.
#[test]
fn numbers_at_the_ends(rt: HostRuntime) {
    let answers = "\
18446744073709551615 => OutOfLimits(JobNo(0))
0xffffffffffffffff|bs=0 => OutOfLimits(JobNo(0))
4k|bs=0b => OutOfLimits(JobNo(0))
4k|bs=0xb => OutOfLimits(JobNo(0))
00 => NoSize(JobNo(0))
4g|bs=64k => a Sequential 65536 65536 65536 1 1 1 Stamp 0 true false false -
";
    assert_answers(&rt, "[a]|size=", answers);
}

#[test]
fn refused_texts(rt: HostRuntime) {
    let refused = "\
x=1| => BadLine(1)
foo=1| => BadLine(1)
direct=1|[a]|size=4k => BadLine(1)
|; c|# c|[a] x| => BadLine(4)
[a]|foo=1| => UnknownOption(2)
[a]|x y=1| => BadLine(2)
[a]|rw=randrw| => BadValue(2)
[a]|rw| => BadValue(2)
[a]|bs=x|bs=512|foo=1| => BadValue(2)
[a]|rw=write| => NoSize(JobNo(0))
[a]|size=4k|bs=1000| => OutOfLimits(JobNo(0))
[a]|size=4k|bs=0|[b]| => OutOfLimits(JobNo(0))
[a]|rw=write|size=4k|[b]|rw=read|size=4k| => MixedPhases
[] => BadLine(1)
[a => BadLine(1)
[a[] => BadLine(1)
[a]] => BadLine(1)
[a]\r => BadLine(1)
[global]|rw=write| => NoJobs
 => NoJobs
";
    assert_answers(&rt, "", refused);
}

#[test]
fn section_headers(rt: HostRuntime) {
    let text = b"\t[ Global ] \r\n  size =\t4k \r\n[globalx]\nsize=8k\n[a]\nsize=4k\n[a]\nsize=4k";
    let jobs = "\
\x20Global  Sequential 1 1 4096 1 1 1 Stamp 0 true false false -
globalx Sequential 2 2 4096 2 1 1 Stamp 0 true false false -
a Sequential 1 1 4096 3 1 1 Stamp 0 true false false -
a Sequential 1 1 4096 4 1 1 Stamp 0 true false false -
";
    assert_answer(&rt, text, jobs);
}

#[test]
fn longest_name(rt: HostRuntime) {
    let header = b"[nnnnnnnnnnnnnnnnnnnnnnnnnnnnnnnnnnnnnnnnnnnnnnnnnnnnnnnnnnnnnnnn]\nsize=4k";
    assert!(rt; phase_and_count(rt.alloc(), header) == Some((Phase::Read, 1)));
    let header = b"[nnnnnnnnnnnnnnnnnnnnnnnnnnnnnnnnnnnnnnnnnnnnnnnnnnnnnnnnnnnnnnnnn]\nsize=4k";
    assert_answer(&rt, header, "BadLine(1)");
}

/// The last line of a section counts, over both spellings, and the job's own section beats them all.
#[test]
fn last_line_of_an_option(rt: HostRuntime) {
    let text =
        b"[global]\nsize=1m\nbs=1k\nblocksize=2k\n[a]\n[b]\nbs=512\nblocksize=4k\n[global]\nbs=8k\n[c]\n";
    let jobs = "\
a Sequential 512 512 2048 1 1 1 Stamp 0 true false false -
b Sequential 256 256 4096 2 1 1 Stamp 0 true false false -
c Sequential 128 128 8192 3 1 1 Stamp 0 true false false -
";
    assert_answer(&rt, text, jobs);
}

#[test]
fn sixteen_sections(rt: HostRuntime) {
    let text =
        b"[global]\nsize=4k\n[a]\n[a]\n[a]\n[a]\n[a]\n[a]\n[a]\n[a]\n[a]\n[a]\n[a]\n[a]\n[a]\n[a]\n[a]\n[a]\n";
    assert!(rt; phase_and_count(rt.alloc(), text) == Some((Phase::Read, 16)));
}

#[test]
fn seventeen_sections(rt: HostRuntime) {
    let start =
        "[global]|size=4k|[a]|[a]|[a]|[a]|[a]|[a]|[a]|[a]|[a]|[a]|[a]|[a]|[a]|[a]|[a]|[a]|[a]|";
    let faults = "\
foo=1 => UnknownOption(20)
 => TooManyJobs
";
    assert_answers(&rt, start, faults);
}

#[test]
fn longest_text(rt: HostRuntime) -> Result<(), Fail> {
    let mut text = Vec::from_slice(rt.alloc(), b"[a]\nsize=4k\n#")?;
    text.resize(16_384, b'~')?;
    assert!(rt; phase_and_count(rt.alloc(), &text) == Some((Phase::Read, 1)));
    text.push(0x80)?;
    assert_answer(&rt, &text, "TooLong");
    Ok(())
}

#[test]
fn bytes_outside_ascii(rt: HostRuntime) {
    for byte in b"\0\x0b\x1f\x7f\x80\xff" {
        assert_answer(&rt, &[b'x', b'\n', *byte], "NotAscii");
    }
}
