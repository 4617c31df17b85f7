//! The values that options take, other than plain numbers.

ghost use Rattle.std.specs.Prelude.{◌≡◌};
ghost use Rattle.std.specs.Option.{option_copied};
ghost use Rattle.job_file.specs.Setting.{read_write_of, switch_of, switch_or_on, copies_of, is_crc, is_digest, verify_of, pattern_of, filename_of};

use crate::bytes::is_text;
use crate::number::{is_hexadecimal, number_of, numeral};
use crate::option::{ReadWrite, is_word};
use crate::text::Name;
use fc_base::Verify;

/// How `rw` goes about the blocks.
pub(crate) fn read_write_of(value: &[u8]) -> Option<ReadWrite>
    ensures { result ≡ read_write_of value.now }
{
    if is_word(value, b"read") {
        Some(ReadWrite::Read)
    } else if is_word(value, b"write") {
        Some(ReadWrite::Write)
    } else if is_word(value, b"randread") {
        Some(ReadWrite::RandRead)
    } else if is_word(value, b"randwrite") {
        Some(ReadWrite::RandWrite)
    } else {
        None
    }
}

/// Whether a switch is on: it is so without a value, too.
pub(crate) fn switch_or_on(value: Option<&[u8]>) -> Option<bool>
    ensures { result ≡ switch_or_on (option_copied value.entry) }
{
    match value {
        Some(value) => switch_of(value),
        None => Some(true),
    }
}

fn switch_of(value: &[u8]) -> Option<bool>
    ensures { result ≡ switch_of value.now }
{
    if is_word(value, b"0") {
        Some(false)
    } else if is_word(value, b"1") {
        Some(true)
    } else {
        None
    }
}

/// How many jobs a section makes: at least one.
pub(crate) fn copies_of(value: &[u8]) -> Option<u64>
    ensures { result ≡ copies_of value.now }
{
    let copies = number_of(value)?;
    if copies > 0 { Some(copies) } else { None }
}

/// What `verify` writes: a checksum of fio's stands for the stamp.
pub(crate) fn verify_of(value: &[u8]) -> Option<Verify>
    ensures { result ≡ verify_of value.now }
{
    if is_word(value, b"pattern") {
        Some(Verify::Pattern)
    } else if is_crc(value) || is_digest(value) {
        Some(Verify::Stamp)
    } else {
        None
    }
}

fn is_crc(value: &[u8]) -> bool
    ensures { result ≡ is_crc value.now }
{
    is_word(value, b"crc64")
        || is_word(value, b"crc32c")
        || is_word(value, b"crc32c-intel")
        || (is_word(value, b"crc32") || is_word(value, b"crc16") || is_word(value, b"crc7"))
}

fn is_digest(value: &[u8]) -> bool
    ensures { result ≡ is_digest value.now }
{
    is_word(value, b"md5")
        || is_word(value, b"xxhash")
        || is_word(value, b"meta")
        || (is_word(value, b"sha512") || is_word(value, b"sha256") || is_word(value, b"sha1"))
}

/// The byte of a pattern.
pub(crate) fn pattern_of(value: &[u8]) -> Option<u8>
    ensures { result ≡ pattern_of value.now }
{
    if !is_hexadecimal(value) || value.len() > 4 {
        return None;
    }
    let byte = numeral(16, &value[2..])?;
    Some(byte as u8)
}

/// The name of a file, which is a label here.
pub(crate) fn filename_of(value: &[u8]) -> Option<Name<'_>>
    ensures { result ≡ filename_of value.now }
{
    if !value.is_empty() && is_text(value) {
        Some(Name::new(value))
    } else {
        None
    }
}
