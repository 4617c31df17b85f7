//! What holds of filters that are cut. The functions have nothing to run.

ghost use Rattle.filters.specs.ClientCuts.{LivesGoOn, RenewalsGoOn};
ghost use Rattle.filters.specs.MirrorCuts.{LivesGoOn as MirrorsGoOn};

/// Wherever the answers of the client's filter are cut, at any byte, the note that was saved last says what the list
/// of its client does, with the cut, and the next life stands on both, with a mirror or without one. Where a client is
/// cut that begins anew, it has begun, with its note saved; or it is as if it had not.
pub fn cut_law()
    ensures lives { LivesGoOn }
    ensures renewals { RenewalsGoOn }
{
    client_core::one_note();
    client_core::notes_are_read_back();
}

/// Wherever the answers of the mirror's filter are cut, at any byte, the note that was saved last says what the list of
/// its mirror does, with the cut, and the next life stands on both.
pub fn mirror_cut_law()
    ensures { MirrorsGoOn }
{}
