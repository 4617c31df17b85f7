//! A trigger that is a file.

use node_threads::Trigger;
use std::fs;
use std::fs::Files;

/// It is pulled once there is a file at this path.
#[derive(Drop)]
pub struct FileTrigger<'a, F> {
    pub files: &'a F,
    pub path: &'a str,
}

impl<F: Files> Trigger for FileTrigger<'_, F> {
    fn pulled(&mut self) -> bool {
        fs::exists(self.files, self.path).unwrap_or(false)
    }
}
