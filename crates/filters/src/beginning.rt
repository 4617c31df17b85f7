//! How the client begins.

ghost use Rattle.std.specs.Prelude.{◌≡◌};
ghost use Rattle.filters.specs.ClientLives.{is_renewal};

use fc_base::Generation;

/// How the client begins.
#[derive(Clone, Copy, Debug, PartialEq, Eq)]
pub enum Beginning {
    /// Over its note, without a mirror.
    Alone,
    /// Over its note, with a mirror.
    Mirrored,
    /// Anew, with a mirror, in this generation: its note was lost.
    Renewed(Generation),
}

impl Beginning {
    /// Whether a note is saved as it begins.
    pub(crate) fn saves(&self) -> bool
        ensures { result ≡ is_renewal self.now }
    {
        match self {
            Beginning::Alone | Beginning::Mirrored => false,
            Beginning::Renewed(_) => true,
        }
    }
}
