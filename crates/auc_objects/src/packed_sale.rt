//! The price and the holder of an object in 16 bytes, so that a bid reads both at one place of memory.

ghost use Rattle.std.specs.Prelude.{◌≡◌, None, Some};
ghost use Rattle.auc_graph.specs.Price.{IsPrice};
ghost use Rattle.auc_objects.specs.PackedSales.{holder_in, price_in};

use auc_letters::Held;

/// The price and the holder of an object.
#[derive(Clone, Copy, Debug, PartialEq, Eq)]
pub(crate) struct PackedSale {
    // The price where the object has a holder, and -1 less the price where it has none: prices aren't below 0.
    coded: i64,
    person: u32,
    arc: u32,
}

impl PackedSale {
    /// An object with no holder.
    #[inline]
    pub(crate) fn unsold(price: i64) -> PackedSale
        requires { IsPrice price }
        ensures price { price_in result ≡ price }
        ensures holder { holder_in result ≡ None }
    {
        PackedSale {
            coded: -1 - price,
            person: 0,
            arc: 0,
        }
    }

    /// An object with a holder.
    #[inline]
    pub(crate) fn sold(price: i64, held: Held) -> PackedSale
        requires { IsPrice price }
        ensures price { price_in result ≡ price }
        ensures holder { holder_in result ≡ Some held }
    {
        PackedSale {
            coded: price,
            person: held.person,
            arc: held.arc,
        }
    }

    /// The price.
    #[inline]
    pub(crate) fn price(self) -> i64
        ensures { result ≡ price_in self }
    {
        if self.coded < 0 {
            -1 - self.coded
        } else {
            self.coded
        }
    }

    /// The holder, if there is one.
    #[inline]
    pub(crate) fn holder(self) -> Option<Held>
        ensures { result ≡ holder_in self }
    {
        if self.coded < 0 {
            return None;
        }
        Some(Held {
            person: self.person,
            arc: self.arc,
        })
    }
}
