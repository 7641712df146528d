//! Gaps of a table, which are read as entries of a very high cost.

/// The cost of a gap: above the greatest difference in cost of two assignments without gaps.
pub(crate) const GAP_COST: i64 = 70_368_744_177_664;

/// What a search takes for a gap: an entry that equals this number, or nothing. Each of both has passes of its own,
/// since to look for gaps takes time.
#[derive(Clone, Copy)]
pub(crate) struct Gap<const IS_ANY: bool>(pub(crate) i64);

impl<const IS_ANY: bool> Gap<IS_ANY> {
    /// Whether an entry is a gap.
    #[inline(always)]
    pub(crate) fn is_at(self, entry: i64) -> bool {
        IS_ANY && entry == self.0
    }

    /// The cost of an entry.
    #[inline(always)]
    pub(crate) fn cost_of(self, entry: i64) -> i64 {
        if self.is_at(entry) { GAP_COST } else { entry }
    }
}
