//! The options of the profile: their names and their settings.

ghost use Rattle.std.specs.Prelude.{◌≡◌, bytes_eq};
ghost use Rattle.std.specs.Option.{option_copied};
ghost use Rattle.job_file.specs.Setting.{size_option, order_option, verify_option, option_named, is_engine_option, is_report_option, is_ignored, setting_of};

use crate::number::number_of;
use crate::text::Name;
use crate::value::{copies_of, filename_of, pattern_of, read_write_of, switch_or_on, verify_of};
use fc_base::Verify;

/// Which option a line names.
#[derive(Clone, Copy)]
pub(crate) enum OptionName {
    /// `rw`, `readwrite`.
    ReadWrite,
    /// `bs`, `blocksize`.
    BlockSize,
    Size,
    IoSize,
    NumberIos,
    IoDepth,
    XWindow,
    NumJobs,
    RandSeed,
    NoRandomMap,
    Verify,
    VerifyPattern,
    VerifyFatal,
    VerifyStateSave,
    VerifyStateLoad,
    Filename,
}

/// What `rw` may be.
#[derive(Clone, Copy)]
pub(crate) enum ReadWrite {
    Read,
    Write,
    RandRead,
    RandWrite,
}

/// An option with its value.
#[derive(Drop)]
pub(crate) enum Setting<'a> {
    ReadWrite(ReadWrite),
    BlockSize(u64),
    Size(u64),
    IoSize(u64),
    NumberIos(u64),
    IoDepth(u64),
    XWindow(u64),
    NumJobs(u64),
    RandSeed(u64),
    NoRandomMap(bool),
    Verify(Verify),
    VerifyPattern(u8),
    VerifyFatal(bool),
    VerifyStateSave(bool),
    VerifyStateLoad(bool),
    Filename(Name<'a>),
}

/// The option of this name, `None` where the profile has none.
pub(crate) fn option_named(name: &[u8]) -> Option<OptionName>
    ensures { result ≡ option_named name.now }
{
    if let Some(option) = size_option(name) {
        return Some(option);
    }
    if let Some(option) = order_option(name) {
        return Some(option);
    }
    verify_option(name)
}

fn size_option(name: &[u8]) -> Option<OptionName>
    ensures { result ≡ size_option name.now }
{
    if is_word(name, b"rw") || is_word(name, b"readwrite") {
        Some(OptionName::ReadWrite)
    } else if is_word(name, b"bs") || is_word(name, b"blocksize") {
        Some(OptionName::BlockSize)
    } else if is_word(name, b"size") {
        Some(OptionName::Size)
    } else if is_word(name, b"io_size") {
        Some(OptionName::IoSize)
    } else if is_word(name, b"number_ios") {
        Some(OptionName::NumberIos)
    } else {
        None
    }
}

fn order_option(name: &[u8]) -> Option<OptionName>
    ensures { result ≡ order_option name.now }
{
    if is_word(name, b"iodepth") {
        Some(OptionName::IoDepth)
    } else if is_word(name, b"x_window") {
        Some(OptionName::XWindow)
    } else if is_word(name, b"numjobs") {
        Some(OptionName::NumJobs)
    } else if is_word(name, b"randseed") {
        Some(OptionName::RandSeed)
    } else if is_word(name, b"norandommap") {
        Some(OptionName::NoRandomMap)
    } else if is_word(name, b"filename") {
        Some(OptionName::Filename)
    } else {
        None
    }
}

fn verify_option(name: &[u8]) -> Option<OptionName>
    ensures { result ≡ verify_option name.now }
{
    if is_word(name, b"verify") {
        Some(OptionName::Verify)
    } else if is_word(name, b"verify_pattern") {
        Some(OptionName::VerifyPattern)
    } else if is_word(name, b"verify_fatal") {
        Some(OptionName::VerifyFatal)
    } else if is_word(name, b"verify_state_save") {
        Some(OptionName::VerifyStateSave)
    } else if is_word(name, b"verify_state_load") {
        Some(OptionName::VerifyStateLoad)
    } else {
        None
    }
}

/// Whether an option of this name is accepted and has no effect: what it tunes in fio does not
/// change which bytes are written, or is always so here.
pub(crate) fn is_ignored(name: &[u8]) -> bool
    ensures { result ≡ is_ignored name.now }
{
    is_engine_option(name) || is_report_option(name)
}

fn is_engine_option(name: &[u8]) -> bool
    ensures { result ≡ is_engine_option name.now }
{
    is_word(name, b"ioengine")
        || is_word(name, b"direct")
        || is_word(name, b"thread")
        || is_word(name, b"serialize_overlap")
}

fn is_report_option(name: &[u8]) -> bool
    ensures { result ≡ is_report_option name.now }
{
    is_word(name, b"group_reporting")
        || is_word(name, b"description")
        || is_word(name, b"do_verify")
}

/// The option with the value that stands behind `=`; `None` where the option doesn't take it.
pub(crate) fn setting_of(option: OptionName, value: Option<&[u8]>) -> Option<Setting<'_>>
    ensures { result ≡ setting_of option (option_copied value.entry) }
{
    match option {
        OptionName::ReadWrite => Some(Setting::ReadWrite(read_write_of(value?)?)),
        OptionName::BlockSize => Some(Setting::BlockSize(number_of(value?)?)),
        OptionName::Size => Some(Setting::Size(number_of(value?)?)),
        OptionName::IoSize => Some(Setting::IoSize(number_of(value?)?)),
        OptionName::NumberIos => Some(Setting::NumberIos(number_of(value?)?)),
        OptionName::IoDepth => Some(Setting::IoDepth(number_of(value?)?)),
        OptionName::XWindow => Some(Setting::XWindow(number_of(value?)?)),
        OptionName::NumJobs => Some(Setting::NumJobs(copies_of(value?)?)),
        OptionName::RandSeed => Some(Setting::RandSeed(number_of(value?)?)),
        OptionName::NoRandomMap => Some(Setting::NoRandomMap(switch_or_on(value)?)),
        OptionName::Verify => Some(Setting::Verify(verify_of(value?)?)),
        OptionName::VerifyPattern => Some(Setting::VerifyPattern(pattern_of(value?)?)),
        OptionName::VerifyFatal => Some(Setting::VerifyFatal(switch_or_on(value)?)),
        OptionName::VerifyStateSave => Some(Setting::VerifyStateSave(switch_or_on(value)?)),
        OptionName::VerifyStateLoad => Some(Setting::VerifyStateLoad(switch_or_on(value)?)),
        OptionName::Filename => Some(Setting::Filename(filename_of(value?)?)),
    }
}

/// Whether the bytes are this word.
pub(crate) fn is_word(bytes: &[u8], word: &[u8]) -> bool
    ensures { result ≡ bytes_eq bytes.now word.now }
{
    bytes == word
}
