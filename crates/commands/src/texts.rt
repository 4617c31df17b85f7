//! The two texts of an input.

ghost use Rattle.std.specs.Prelude.{◌≡◌, ◌<◌, length};
ghost use Rattle.commands.specs.Texts.{is_closing, AreTexts};

/// The text of the jobs that write, and that of the jobs that read and check.
#[derive(Clone, Copy)]
pub(crate) struct Texts<'a> {
    pub writing: &'a [u8],
    pub reading: &'a [u8],
}

/// Parts an input at its first line that is a dot. Without such a line all of it is the writing text,
/// and the reading text is empty.
pub(crate) fn texts_of(input: &[u8]) -> Texts<'_>
    ensures { AreTexts input.now result.writing.now result.reading.now }
{
    for at in 0..input.len() {
        if is_closing(input, at) {
            return Texts {
                writing: &input[..at],
                reading: input.get(at + 2..).unwrap_or(&[]),
            };
        }
    }
    Texts {
        writing: input,
        reading: &[],
    }
}

/// Whether a line begins at this place that is a dot.
fn is_closing(input: &[u8], at: usize) -> bool
    requires { at < length input.now }
    ensures { result ≡ is_closing input.now at }
{
    let begins = at == 0 || input[at - 1] == b'\n';
    let ends = input.get(at + 1).copied().unwrap_or(b'\n') == b'\n';
    begins && input[at] == b'.' && ends
}
