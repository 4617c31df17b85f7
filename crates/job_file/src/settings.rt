//! The options that are set for a job.

ghost use Rattle.std.specs.Prelude.{◌≡◌};
ghost use Rattle.job_file.specs.Settings.{none_set, with_setting};

use crate::option::{ReadWrite, Setting};
use crate::text::Name;
use fc_base::Verify;

/// Each option with the value that it has been given, if any.
#[derive(Drop)]
pub(crate) struct Settings<'a> {
    pub(crate) read_write: Option<ReadWrite>,
    pub(crate) block_size: Option<u64>,
    pub(crate) size: Option<u64>,
    pub(crate) io_size: Option<u64>,
    pub(crate) number_ios: Option<u64>,
    pub(crate) io_depth: Option<u64>,
    pub(crate) x_window: Option<u64>,
    pub(crate) num_jobs: Option<u64>,
    pub(crate) rand_seed: Option<u64>,
    pub(crate) no_random_map: Option<bool>,
    pub(crate) verify: Option<Verify>,
    pub(crate) verify_pattern: Option<u8>,
    pub(crate) verify_fatal: Option<bool>,
    pub(crate) verify_state_save: Option<bool>,
    pub(crate) verify_state_load: Option<bool>,
    pub(crate) filename: Option<Name<'a>>,
}

impl<'a> Settings<'a> {
    /// No option is set.
    pub(crate) fn new() -> Settings<'a>
        ensures { result ≡ none_set }
    {
        Settings {
            read_write: None,
            block_size: None,
            size: None,
            io_size: None,
            number_ios: None,
            io_depth: None,
            x_window: None,
            num_jobs: None,
            rand_seed: None,
            no_random_map: None,
            verify: None,
            verify_pattern: None,
            verify_fatal: None,
            verify_state_save: None,
            verify_state_load: None,
            filename: None,
        }
    }

    /// The same settings, for a section that inherits them.
    pub(crate) fn inherited(&self) -> Settings<'a>
        ensures { result ≡ self.now }
    {
        let filename = match &self.filename {
            Some(name) => Some(name.again()),
            None => None,
        };
        Settings { filename, ..*self }
    }

    /// Sets one option, over an earlier value.
    pub(crate) fn set(&mut self, setting: Setting<'a>)
        ensures { self.new ≡ with_setting self.old setting.entry }
    {
        match setting {
            Setting::ReadWrite(value) => self.read_write = Some(value),
            Setting::BlockSize(value) => self.block_size = Some(value),
            Setting::Size(value) => self.size = Some(value),
            Setting::IoSize(value) => self.io_size = Some(value),
            Setting::NumberIos(value) => self.number_ios = Some(value),
            Setting::IoDepth(value) => self.io_depth = Some(value),
            Setting::XWindow(value) => self.x_window = Some(value),
            Setting::NumJobs(value) => self.num_jobs = Some(value),
            Setting::RandSeed(value) => self.rand_seed = Some(value),
            Setting::NoRandomMap(value) => self.no_random_map = Some(value),
            Setting::Verify(value) => self.verify = Some(value),
            Setting::VerifyPattern(value) => self.verify_pattern = Some(value),
            Setting::VerifyFatal(value) => self.verify_fatal = Some(value),
            Setting::VerifyStateSave(value) => self.verify_state_save = Some(value),
            Setting::VerifyStateLoad(value) => self.verify_state_load = Some(value),
            Setting::Filename(value) => self.filename = Some(value),
        }
    }
}
