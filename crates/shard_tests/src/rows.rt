//! Rows of problems that are read from texts.

use crate::desk::rows_of;
use crate::same::assert_same;
use auc_graph::RowArc;
use std::test::*;

fn arc(cost: i32, object: u32, arc: u32) -> RowArc {
    RowArc { cost, object, arc }
}

/// Arcs of several persons, out of order and one pair twice; one person has none.
#[test]
fn rows_in_file_order(rt: HostRuntime) {
    let rows = rows_of(&rt, "3 2 1 -5 1 3 4 2 1 9 1 1 4").expect(&rt, "rows");
    assert!(rt; rows.persons() == 3);
    assert_same(&rt, rows.objects(), 3);
    assert_same(&rt, rows.cost_spread(), 14);
    assert_same(&rt, rows.row(0), [arc(4, 2, 1), arc(4, 0, 3)].as_slice());
    assert_same(&rt, rows.row(1), [arc(-5, 0, 0), arc(9, 0, 2)].as_slice());
    assert!(rt; rows.row(2).is_empty());
}
