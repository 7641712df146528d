//! Bytes of a token, as they are shown.

ghost use Rattle.std.specs.Prelude.{◌≡◌, ◌≤◌, length, map};
ghost use Rattle.auc_messages.specs.Sentences.{shown_byte};

use arrayvec::ArrayVec;

/// A byte as it is shown: no byte moves the cursor of a terminal, or ends the quotation.
fn shown_byte(byte: u8) -> u8
    ensures { result ≡ shown_byte byte }
{
    if byte >= 33 && byte <= 126 && byte != b'"' {
        byte
    } else {
        b'?'
    }
}

/// The first bytes of a token as they are shown.
pub(crate) fn shown(front: &[u8]) -> ArrayVec<u8, 24>
    requires { length front.now ≤ 24 }
    ensures { result.items ≡ map shown_byte front.now }
{
    let mut shown = ArrayVec::new();
    for byte in front {
        shown.push(shown_byte(*byte));
    }
    shown
}
