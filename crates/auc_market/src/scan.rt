//! A person's best arc, in one pass over the row that has no branch by the values.

ghost use Rattle.std.specs.Prelude.{◌≡◌, ◌<◌, ◌+◌, ◌^◌, ◌≤ℤ◌, All, length};
ghost use Rattle.auc_graph.specs.Price.{IsPrice};
ghost use Rattle.auc_rows.specs.Rows.{IsShort};
ghost use Rattle.auc_market.specs.Scan.{IsFound, IsPricedRow, IsScale, IsValue, Lowered, LoweredTwice, short_value};

use auc_rows::ShortArc;

/// The result of a pass: the least value, the least value of the other arcs, and the place of the least value in the
/// row. Where there are no other arcs, the second is the greatest number.
#[derive(Clone, Copy)]
pub(crate) struct Found {
    pub(crate) value: i64,
    pub(crate) second: i64,
    pub(crate) place: usize,
}

impl Found {
    /// With one value more, of the arc at this place of the row.
    #[inline(always)]
    fn with(self, value: i64, place: usize) -> Found
        ensures { Lowered self value place result }
    {
        let is_less = value < self.value;
        // Each number is chosen by itself, so that LLVM makes selects of them; with one `if` for all three it would
        // make a branch.
        let second = if is_less {
            self.value
        } else if value < self.second {
            value
        } else {
            self.second
        };
        let place = if is_less { place } else { self.place };
        let value = if is_less { value } else { self.value };
        Found {
            value,
            second,
            place,
        }
    }

    /// With two values more, of the arc at this place of the row and of the next one. They are compared with each other
    /// first. So a pair waits for two comparisons of the pair before it, where one by one each value waits for three.
    #[inline(always)]
    fn with_two(self, one: i64, other: i64, place: usize) -> Found
        requires next { place + 1 < 2 ^ 64 }
        requires ordered { self.value ≤ℤ self.second }
        ensures { LoweredTwice self one other place result }
    {
        let lesser = one.min(other);
        let greater = one.max(other);
        let near = if other < one { place + 1 } else { place };
        let place = if lesser < self.value {
            near
        } else {
            self.place
        };
        Found {
            value: self.value.min(lesser),
            second: self.second.min(greater).min(self.value.max(lesser)),
            place,
        }
    }
}

/// The value of an arc of this cost at this price, by sums that wrap: for searches, whose proposals are tried.
#[inline(always)]
pub(crate) fn wrapping_value(scale: i64, cost: i32, price: i64) -> i64 {
    scale.wrapping_mul(i64::from(cost)).wrapping_add(price)
}

/// The same for an arc; the greatest number where its object has no price.
#[inline(always)]
pub(crate) fn wrapping_value_of(scale: i64, arc: ShortArc, prices: &[i64]) -> i64 {
    if (arc.object as usize) < prices.len() {
        wrapping_value(scale, arc.cost, prices[arc.object as usize])
    } else {
        i64::MAX
    }
}

/// The value of an arc at these prices: its scaled cost plus the price of its object. It is the reduced cost, but for
/// the person's dual; less is better.
#[inline(always)]
pub(crate) fn value_of(scale: i64, arc: ShortArc, prices: &[i64]) -> i64
    requires scale { IsScale scale }
    requires arc { IsShort (length prices.now) arc }
    requires prices { All IsPrice prices.now }
    ensures is { result ≡ short_value scale prices.now arc }
    ensures range { IsValue result }
{
    let price = prices[arc.object as usize];
    scale * i64::from(arc.cost) + price
}

/// The best arc of a row. Two arcs to one object count as any two do.
#[inline(always)]
pub(crate) fn scan(scale: i64, row: &[ShortArc], prices: &[i64]) -> Found
    requires priced { IsPricedRow scale prices.now row.now }
    requires some { 0 < length row.now }
    ensures { IsFound (short_value scale prices.now) row.now (length row.now) result }
{
    let mut found = Found {
        value: value_of(scale, row[0], prices),
        second: i64::MAX,
        place: 0,
    };
    for pair in 0..(row.len() - 1) / 2 {
        let place = 2 * pair + 1;
        let one = value_of(scale, row[place], prices);
        let other = value_of(scale, row[place + 1], prices);
        found = found.with_two(one, other, place);
    }
    if row.len() % 2 == 0 {
        let last = row.len() - 1;
        found = found.with(value_of(scale, row[last], prices), last);
    }
    found
}
