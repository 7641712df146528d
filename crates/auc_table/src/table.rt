//! A table of costs, as it lies in memory.

/// A row for each person, with an entry for each object. A row begins `stride` places after the row before.
#[derive(Clone, Copy)]
pub struct Table<'a> {
    /// The number of rows.
    pub persons: u32,
    /// The number of entries of a row.
    pub objects: u32,
    /// The number of places from the start of a row to that of the next one.
    pub stride: usize,
    /// All costs.
    pub costs: &'a [i64],
}

/// The row of a person; an empty one where it isn't within the costs.
pub(crate) fn row_of<'a>(table: &Table<'a>, person: u32) -> &'a [i64] {
    let Some(start) = table.stride.checked_mul(person as usize) else {
        return &[];
    };
    let objects = table.objects as usize;
    if table.costs.len() < objects || table.costs.len() - objects < start {
        return &[];
    }
    &table.costs[start..start + objects]
}
