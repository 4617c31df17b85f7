//! Text of a job file: borrowed from it, and owned by a job.

ghost use Rattle.std.specs.Prelude.{◌≡◌, IfOk, IsTrue, string_bytes};
ghost use Rattle.std.specs.List.{list_all};
ghost use Rattle.job_file.specs.Bytes.{is_text_byte};

use std::alloc::{AllocError, Global};
use std::marker::Model;

/// A text of its own, such as a job's name: printable ASCII, tabs and carriage returns.
pub struct PrintableText {
    string: String,
}

/// By hand, so that the crates above need no proof of it.
impl Drop for PrintableText {
    fn drop(self) {
        let PrintableText { string: _ } = self;
    }
}

impl Model for PrintableText {
    ghost use Rattle.std.specs.Prelude.{ℕ, List, string_bytes};

    ghost Value = { List ℕ };

    ghost view = { λ t. string_bytes t.string };
}

impl PrintableText {
    /// The text that this string has.
    pub fn from_string(string: String) -> PrintableText
        ensures { result ≡ string_bytes string }
    {
        PrintableText { string }
    }

    /// The text as a string.
    pub fn into_string(self) -> String
        ensures { string_bytes result ≡ self }
    {
        let PrintableText { string } = self;
        string
    }

    /// The text, borrowed.
    pub fn as_str(&self) -> &str
        ensures { result.now ≡ self.now }
    {
        self.string.as_str()
    }
}

/// A name as it stands in the job file.
#[derive(Drop)]
pub(crate) struct Name<'a> {
    bytes: &'a [u8],
}

impl<'a> Model for Name<'a> {
    ghost use Rattle.std.specs.Prelude.{ℕ, List, IsTrue};
    ghost use Rattle.std.specs.List.{list_all};
    ghost use Rattle.job_file.specs.Bytes.{is_text_byte};

    ghost Value = { List ℕ };

    ghost view = { λ n. n.bytes.now };

    ghost invariant = { λ n. IsTrue (list_all is_text_byte n.bytes.now) };
}

impl<'a> Name<'a> {
    /// The name that these bytes spell.
    pub(crate) fn new(bytes: &'a [u8]) -> Name<'a>
        requires { IsTrue (list_all is_text_byte bytes.now) }
        ensures { result ≡ bytes.now }
    {
        Name { bytes }
    }

    /// The same name.
    pub(crate) fn again(&self) -> Name<'a>
        ensures { result ≡ self.now }
    {
        Name { bytes: self.bytes }
    }

    /// A copy of the name, apart from the job file.
    pub(crate) fn copied(&self, alloc: Global) -> Result<PrintableText, AllocError>
        ensures { IfOk result (λ text. text ≡ self.now) }
    {
        let string = match str::from_utf8(self.bytes) {
            Ok(text) => String::from_str(alloc, text)?,
            Err(_) => unreachable!(),
        };
        Ok(PrintableText { string })
    }
}
