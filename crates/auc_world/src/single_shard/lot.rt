//! An object, its price and its holder, in 16 bytes.

ghost use Rattle.std.specs.Prelude.{◌≡◌, None};
ghost use Rattle.auc_world.specs.Lots.{holder_in, price_in};

use auc_letters::{Held, NOBODY};

/// The price of an object, in scaled costs, its holder, and the holder's arc.
#[derive(Clone, Copy)]
pub(crate) struct Lot {
    pub(crate) price: i64,
    /// [`NOBODY`] where nobody holds it.
    pub(crate) person: u32,
    pub(crate) arc: u32,
}

impl Lot {
    /// An object that nobody holds.
    #[inline]
    pub(crate) fn unsold(price: i64) -> Lot
        ensures price { price_in result ≡ price }
        ensures holder { holder_in result ≡ None }
    {
        Lot {
            price,
            person: NOBODY,
            arc: 0,
        }
    }

    /// The holder, if there is one.
    #[inline]
    pub(crate) fn holder(self) -> Option<Held>
        ensures { result ≡ holder_in self }
    {
        if self.person == NOBODY {
            return None;
        }
        Some(Held {
            person: self.person,
            arc: self.arc,
        })
    }
}
