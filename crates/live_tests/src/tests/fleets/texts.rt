//! Texts of several jobs, which write and which read.

/// Two jobs; the second is read in larger blocks than it was written.
pub const WRITING_TWO: &[u8] = b"[a]\nrw=write\nbs=512\nsize=1k\n[b]\nrw=write\nbs=512\nsize=2k\n";

/// How that is read.
pub const READING_OTHER: &[u8] =
    b"[global]\nrw=read\nverify_state_load=1\n[a]\nbs=512\nsize=1k\n[b]\nbs=1k\nsize=2k\n";

/// Three jobs that have nothing in common: two passes over four blocks; four blocks of one byte over and over, in
/// a random order; and eight writes to any of eight blocks.
pub const WRITING_UNLIKE: &[u8] = b"\
[a]
rw=write
bs=512
size=2k
io_size=4k
iodepth=4
[b]
rw=randwrite
bs=1k
size=4k
verify=pattern
verify_pattern=0x5a
[c]
rw=randwrite
norandommap
bs=512
size=4k
iodepth=2
randseed=7
";

/// How these are read.
pub const READING_UNLIKE: &[u8] = b"\
[global]
verify_state_load=1
[a]
rw=read
bs=512
size=2k
io_size=4k
iodepth=4
[b]
rw=randread
bs=1k
size=4k
verify=pattern
verify_pattern=0x5a
[c]
rw=randread
norandommap
bs=512
size=4k
iodepth=2
randseed=7
";
