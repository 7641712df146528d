//! The methods of scanning a row for a bid (`Method`); all find the same arc.

/// The greatest number of arcs of a short row. With a list, branches are mispredicted where prices move much. A pass
/// over the row takes this part of the time with lists:
///
/// - price wars of 48 arcs (`levels 48`, `few 500 48`): 0.38 and 0.51;
/// - a plane (`plane 48`): 0.60;
/// - rows of 8 to 60 arcs (`mixed 8 60`): 0.81;
/// - random costs (`uniform 48`, `uniform 64`), where lists scan fewer arcs: 1.08 and 1.18.
pub(crate) const SHORT_ROW: usize = 64;

/// The greatest number of arcs of a row without blocks. With blocks 1,000 arcs take 0.29 of the instructions of lists
/// alone where lists don't help (`products`), and 0.71 where they do (`share 20`). Rows of 128 arcs would take 1.01
/// (`uniform 128`).
pub(crate) const LONG_ROW: usize = 256;

/// The greatest number of arcs of a row whose list is made by a pass over all of it. That of a longer one is made by
/// its blocks (`lists_by_blocks`). Blocks take this part of the time of such a pass:
///
/// - 1,000 arcs (`share 20` of 5,000 persons): 0.95;
/// - 2,000 arcs (dense): 0.86;
/// - 300 arcs (`share 20` of 1,500): 1.37, since such a pass is predicted well.
pub(crate) const VERY_LONG_ROW: usize = 640;

/// The method of scanning a row. It is chosen once, by the length and the order of the row itself.
#[derive(Clone, Copy)]
pub(crate) enum Method {
    /// A pass over a row in any order, with a branch by values (`search`).
    Plain,
    /// A pass over a short row in rising order, with no branch by values (`sorted_row`).
    Rising,
    /// The same over a copy of a short row, which begins here among the copies.
    Sorted { start: u32, count: u8 },
    /// A longer row: the candidate list at this place (`shortlist`), and above 256 arcs blocks with bounds (`bounded`).
    /// Rows of 128 arcs take 0.83 of the instructions without lists (`uniform 128`), 501 arcs 0.64 (`share 10` of 5,000
    /// persons).
    Listed { place: u32 },
}
