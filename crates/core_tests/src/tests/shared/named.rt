//! Texts and states that rows name.

use super::draft::Draft;

/// What a name says.
fn named(name: &str) -> Option<&'static [u8]> {
    match name {
        // Two blocks, each written once, both writes at the same time.
        "writes" => Some(WRITES),
        // A check of them, with the state that is kept.
        "reads" => Some(READS),
        // A full pass of them.
        "full" => Some(b"[a]\nrw=read\nbs=512\nsize=1k\n"),
        // Two jobs such as `writes`, with one seed.
        "two" => { Some(b"[global]\nrw=write\nbs=512\nsize=1k\niodepth=2\n[a]\n[b]\nrandseed=0\n") }
        // The same, the first without a state.
        "unsaved" => Some(
            b"[global]\nrw=write\nbs=512\nsize=1k\niodepth=2\n\
            [a]\nverify_state_save=0\n[b]\nrandseed=0\n",
        ),
        "first" => Some(FIRST),
        "listed" => Some(LISTED),
        "fresh" => Some(FRESH),
        _ => None,
    }
}

static WRITES: &[u8] = b"[a]\nrw=write\nbs=512\nsize=1k\niodepth=2\n";

static READS: &[u8] = b"[a]\nrw=read\nbs=512\nsize=1k\nverify_state_load=1\n";

/// The state of `writes` in run 1 at server 0: both writes are issued, and write 0 is done.
static FIRST: &[u8] = b"FCV2\0\0\0\0\0\0\0\x01\0\0\0\0\0\0\0\0\0\0\0\0\
    \0\0\x02\0\0\0\0\x02\0\0\0\0\0\0\0\x02\0\0\0\0\0\0\0\x01\0\0\0\x02\0\0\0\x02\0\0\0\0\0\0\0\x02\
    \xcf\xc5\xd0\x7f\x6f\x03\xc2\x9b\xbf\x42\x41\x32\x96\x3f\xe0\x8d\
    \x19\xa3\x7d\x57\x57\xaa\xf5\x20\xbf\x08\x11\x9f\x05\xcd\x56\xd6\
    \0\0\0\0\0\0\0\0\0\0\0\0\0\0\0\x01\0\0\0\0\0\0\0\0\0\0\0\0\0\0\0\0\0\0\0\0\0\0\0\0";

/// The same in layout 1.
static LISTED: &[u8] = b"FCV1\0\0\0\0\0\0\0\x01\0\0\0\0\0\0\0\0\0\0\0\0\
    \0\0\x02\0\0\0\0\x02\0\0\0\0\0\0\0\x02\0\0\0\0\0\0\0\x01\0\0\0\x02\0\0\0\x02\0\0\0\0\0\0\0\x02\
    \xcf\xc5\xd0\x7f\x6f\x03\xc2\x9b\xbf\x42\x41\x32\x96\x3f\xe0\x8d\
    \x19\xa3\x7d\x57\x57\xaa\xf5\x20\xbf\x08\x11\x9f\x05\xcd\x56\xd6\
    \0\0\0\x01\0\0\0\0\0\0\0\0";

/// The state before any write is issued.
static FRESH: &[u8] = b"FCV2\0\0\0\0\0\0\0\x01\0\0\0\0\0\0\0\0\0\0\0\0\
    \0\0\x02\0\0\0\0\x02\0\0\0\0\0\0\0\x02\0\0\0\0\0\0\0\x01\0\0\0\x02\0\0\0\x02\0\0\0\0\0\0\0\0\
    \xcf\xc5\xd0\x7f\x6f\x03\xc2\x9b\xbf\x42\x41\x32\x96\x3f\xe0\x8d\
    \x19\xa3\x7d\x57\x57\xaa\xf5\x20\xbf\x08\x11\x9f\x05\xcd\x56\xd6\
    \0\0\0\0\0\0\0\0\0\0\0\0\0\0\0\0\0\0\0\0\0\0\0\0\0\0\0\0\0\0\0\0\0\0\0\0\0\0\0\0";

/// A state of 200 writes to two blocks in layout 1, up to its list: the writes 0 to 115 are issued and done.
static LISTS_116: &[u8] = b"FCV1\0\0\0\0\0\0\0\x01\0\0\0\0\0\0\0\0\0\0\0\0\
    \0\0\x02\0\0\0\0\x02\0\0\0\0\0\0\0\xc8\0\0\0\0\0\0\0\x01\
    \0\0\0\x3a\0\0\0\x3a\0\0\0\0\0\0\0\x74\
    \xcf\xc5\xd0\x7f\x6f\x03\xc2\x9b\xbf\x42\x41\x32\x96\x3f\xe0\x8d\
    \x19\xa3\x7d\x57\x57\xaa\xf5\x20\xbf\x08\x11\x9f\x05\xcd\x56\xd6\
    \0\0\0\x74";

/// Puts what a word says: a text with `|` for its line ends, or a name, behind which may stand
/// changes of its bytes, as `~15=1` for a 1 at place 15.
pub fn put_word(draft: &mut Draft, word: &str) {
    match word {
        // Texts of 2,000 bytes, one that is too long by a byte, and a state that lists 116 completions.
        "long_writes" => put_long(draft, WRITES, 1_960),
        "long_reads" => put_long(draft, READS, 1_951),
        "too_long" => put_long(draft, WRITES, 16_345),
        "listed_116" => put_listed(draft),
        _ if word.contains('|') => put_text(draft, word),
        _ => put_changed(draft, word),
    }
}

fn put_changed(draft: &mut Draft, word: &str) {
    let (name, changes) = match word.split_once('~') {
        Some(parts) => parts,
        None => (word, ""),
    };
    match named(name) {
        Some(named) => put_with(draft, named, changes),
        None => draft.give_up(),
    }
}

/// Puts bytes with these changes.
fn put_with(draft: &mut Draft, bytes: &[u8], changes: &str) {
    for (at, byte) in bytes.iter().enumerate() {
        draft.put(&[changed(changes, at).unwrap_or(*byte)]);
    }
}

/// Puts the state `first`, as that of the job with this index: of server 0, 16 jobs for each run.
pub fn put_state(draft: &mut Draft, index: u32) {
    let run = (index / 16 + 1) % 256;
    for (at, byte) in FIRST.iter().enumerate() {
        match at {
            11 => draft.put_number(u64::from(run), 1),
            19 => draft.put_number(u64::from(index % 16), 1),
            _ => draft.put(&[*byte]),
        }
    }
}

/// Puts a state that lists the writes 0 to 115.
fn put_listed(draft: &mut Draft) {
    draft.put(LISTS_116);
    for seq in 0..116u64 {
        draft.put_number(seq, 8);
    }
}

/// Puts a text, and behind it a comment of so many letters.
fn put_long(draft: &mut Draft, text: &[u8], count: u32) {
    draft.put(text);
    draft.put(b"#");
    for _ in 0..count {
        draft.put(b"x");
    }
    draft.put(b"\n");
}

fn put_text(draft: &mut Draft, word: &str) {
    for byte in word.bytes() {
        draft.put(&[if byte == b'|' { b'\n' } else { byte }]);
    }
}

/// The byte that these changes put at a place, if one does.
fn changed(changes: &str, at: usize) -> Option<u8> {
    let mut found = None;
    for change in changes.split('~') {
        if let Some((place, byte)) = change.split_once('=') {
            if place.parse::<usize>().ok() == Some(at) {
                found = byte.parse::<u8>().ok();
            }
        }
    }
    found
}
