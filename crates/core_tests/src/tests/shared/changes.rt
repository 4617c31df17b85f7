//! Notes that are cut short, and notes of which one byte is changed.

use super::trouble::Trouble;
use super::words::next_u32;

/// What reads notes.
pub trait Reader {
    /// Whether bytes are a note, which has to be written as just these bytes.
    fn is_note(&self, bytes: &[u8]) -> Result<bool, Trouble>;
}

/// Each of two states in a note, that of job 0 and that of job 1. Its job has 2 blocks and 2 writes, 2 at a
/// time, which are issued, and write 0 is done. A row for each field: how many bytes it has, and how many
/// changes of one of them leave a note, of 255 for each: by hand, from the field's range.
static STATE: &str = "
    4 0 the length
    4 0 the magic
    8 2039 the run: not 0
    4 7 the server: below 8
    4 14 the job: below 16, and not that of the other state
    1 2 the kind: 0 to 2
    1 1 how it is verified: 0 or 1
    1 0 the pattern
    1 0 what has to be 0
    4 126 bytes of a block: 512 to 65,536, a multiple of 512
    4 509 blocks: 1 to 65,536
    8 523 writes: 2, which are issued, to 1,000,000
    8 2040 the seed: any
    4 1 writes in flight at most: 1, as many as are, to 2, the window
    4 253 the window: 2, the writes in flight, to 256
    8 1 writes issued: 1, since write 0 is done, to 2, all of them
    32 8160 the place of the generator: any
    8 0 the floor: 0
    32 3 which writes are done: of two
";

/// Whether bytes are a note. Where memory runs out, they are read again.
fn is_note(reader: &impl Reader, bytes: &[u8]) -> Result<bool, Trouble> {
    match reader.is_note(bytes) {
        Err(Trouble::NoMemory) => reader.is_note(bytes),
        answer => answer,
    }
}

/// The first length, above 0, of which the bytes of a note are one.
pub fn first_note(reader: &impl Reader, note: &[u8]) -> Result<Option<usize>, Trouble> {
    for place in 0..note.len() {
        let (front, _) = note.split_at(place + 1);
        if is_note(reader, front)? {
            return Ok(Some(front.len()));
        }
    }
    Ok(None)
}

/// Where the first field begins of which more or fewer changes leave a note, and how many do; or where the
/// last one ends, if the note doesn't end there. The head's rows stand before those of two states.
pub fn first_unlike_field(
    reader: &impl Reader,
    note: &mut [u8],
    head: &str,
) -> Result<Option<(usize, u32)>, Trouble> {
    let mut end: usize = 0;
    for fields in [head, STATE, STATE] {
        let unlike = unlike_among(reader, note, fields, &mut end)?;
        if unlike.is_some() {
            return Ok(unlike);
        }
    }
    Ok(if end == note.len() {
        None
    } else {
        Some((end, 0))
    })
}

/// The first of these fields that isn't as its row says. The end of those before them becomes theirs.
fn unlike_among(
    reader: &impl Reader,
    note: &mut [u8],
    fields: &str,
    end: &mut usize,
) -> Result<Option<(usize, u32)>, Trouble> {
    for row in fields.lines() {
        let (bytes, wanted) = field_in(row);
        let start = *end;
        *end = start.saturating_add(bytes);
        let changes = changes_between(reader, note, start, *end)?;
        if changes != wanted {
            return Ok(Some((start, changes)));
        }
    }
    Ok(None)
}

/// How many bytes a field has, and how many changes leave a note.
fn field_in(row: &str) -> (usize, u32) {
    let mut words = row.split_whitespace();
    let bytes = next_u32(&mut words).unwrap_or(0);
    (bytes as usize, next_u32(&mut words).unwrap_or(0))
}

/// How many changes of one byte at these places leave a note.
fn changes_between(
    reader: &impl Reader,
    note: &mut [u8],
    start: usize,
    end: usize,
) -> Result<u32, Trouble> {
    let mut count: u32 = 0;
    for at in start..end {
        count = count.saturating_add(changes_at(reader, note, at)?);
    }
    Ok(count)
}

fn changes_at(reader: &impl Reader, note: &mut [u8], at: usize) -> Result<u32, Trouble> {
    let mut count: u32 = 0;
    for change in 0..u8::MAX {
        if is_changed_note(reader, note, at, change + 1)? {
            count = count.saturating_add(1);
        }
    }
    Ok(count)
}

/// Whether a note is one with these bits of a byte changed. It is left as it was.
pub fn is_changed_note(
    reader: &impl Reader,
    note: &mut [u8],
    at: usize,
    bits: u8,
) -> Result<bool, Trouble> {
    if at >= note.len() {
        return Ok(false);
    }
    note[at] ^= bits;
    let answer = is_note(reader, note);
    note[at] ^= bits;
    answer
}
