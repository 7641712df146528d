//! The words of a certificate that name its version and its limit.

ghost use Rattle.std.specs.Prelude.{◌≡◌};
ghost use Rattle.auc_cert.specs.Text.{head_line, reason_word};
ghost use Rattle.auc_cert.specs.Fields.{reason_of};

const REASONS: [Reason; 5] = [
    Reason::Bids,
    Reason::Ceiling,
    Reason::Posts,
    Reason::Trail,
    Reason::Mail,
];

use crate::form::Form;
use auc_claim::{Reason, Version};

/// The first line of a text.
pub(crate) fn head_line(form: Form) -> &'static [u8]
    ensures { result.now ≡ head_line form }
{
    match form {
        Form::Usual(Version::First) => b"auction 1\n",
        Form::Usual(Version::Second) => b"auction 2\n",
        Form::Large => b"auction 3\n",
    }
}

/// The word of a limit in a certificate.
pub(crate) fn reason_word(reason: Reason) -> &'static [u8]
    ensures { result.now ≡ reason_word reason }
{
    match reason {
        Reason::Bids => b"bids",
        Reason::Ceiling => b"ceiling",
        Reason::Posts => b"posts",
        Reason::Trail => b"trail",
        Reason::Mail => b"mail",
    }
}

/// The limit whose word this is.
#[tactic(auto, unfolding(crate::specs::Fields::reason_of))]
pub(crate) fn reason_of_word(word: &[u8]) -> Option<Reason>
    ensures { result ≡ reason_of word.now }
{
    REASONS
        .iter()
        .copied()
        .find(|reason| word == reason_word(*reason))
}
