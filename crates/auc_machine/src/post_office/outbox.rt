//! The letters that a shard has yet to post.

ghost use Rattle.std.specs.Prelude.{◌≡◌, ◌≢◌, [], ◌∷◌, drop, IsTrue, ◌↔◌, IfSome, IfNone};

use arrayvec::ArrayVec;
use auc_letters::Out;
use std::marker::Model;

/// The letters that a shard has yet to post, the next one first: at most four, which is room for the answers to a bid.
///
/// Contracts see them as a list.
#[derive(Drop)]
pub(crate) struct Outbox {
    letters: ArrayVec<Out, 4>,
}

impl Model for Outbox {
    ghost use Rattle.std.specs.Prelude.{List};
    ghost use Rattle.auc_letters.specs.declared.out.Out.{Out};

    ghost Value = { List Out };

    ghost view = { λ o. o.letters.items };
}

impl Outbox {
    /// No letters.
    pub(crate) fn new() -> Outbox
        ensures { result ≡ [] }
    {
        Outbox {
            letters: ArrayVec::new(),
        }
    }

    /// Whether there is no letter.
    #[inline]
    pub(crate) fn is_empty(&self) -> bool
        ensures { IsTrue result ↔ (self.now ≡ []) }
    {
        self.letters.is_empty()
    }

    /// The letter to be posted next.
    #[inline]
    pub(crate) fn first(&self) -> Option<Out>
        ensures some { IfSome result (λ o. self.now ≡ o ∷ drop 1 self.now) }
        ensures none { IfNone result (self.now ≡ []) }
    {
        if self.letters.is_empty() {
            return None;
        }
        Some(self.letters[0])
    }

    /// Removes the letter to be posted next.
    #[inline]
    pub(crate) fn drop_first(&mut self)
        requires { self.old ≢ [] }
        ensures { self.new ≡ drop 1 self.old }
    {
        // Of at most two letters, which is all that an answer has, the last may take the first's place; that is faster.
        let _ = if self.letters.len() <= 2 {
            self.letters.swap_remove(0)
        } else {
            self.letters.remove(0)
        };
    }

    /// Puts a letter in, where there is none.
    #[inline]
    pub(crate) fn put(&mut self, out: Out)
        requires { self.old ≡ [] }
        ensures { self.new ≡ out ∷ [] }
    {
        self.letters.push(out);
    }

    /// Puts these letters in place of all that it has.
    #[inline]
    pub(crate) fn replace(&mut self, letters: ArrayVec<Out, 4>)
        ensures { self.new ≡ letters.items }
    {
        self.letters = letters;
    }
}
