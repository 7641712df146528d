//! Calls on small pools, and their answers.

ghost use Rattle.std.specs.Prelude.{◌≡◌, length};

use crate::same::assert_same;
use auc_nodes::{NodePool, PoolError};
use std::alloc::Global;
use std::process::Abort;
use std::test::Fail;

/// A pool beside the number of its lists. A test fails at a list that doesn't exist.
#[derive(Drop)]
struct Lists {
    count: u32,
    pool: NodePool<i64>,
    ghost all: { length pool.lists ≡ count },
}

impl Lists {
    fn new(alloc: Global, count: u32, nodes: u32) -> Result<Lists, Fail> {
        let pool = NodePool::make(alloc, count, nodes, 0i64)?;
        Ok(Lists { count, pool })
    }

    fn push(&mut self, rt: &impl Abort, list: u32, item: i64) -> Result<(), i64> {
        assert!(rt; list < self.count);
        self.pool.push_back(list, item)
    }

    fn pop(&mut self, rt: &impl Abort, list: u32) -> Option<i64> {
        assert!(rt; list < self.count);
        self.pool.pop_front(list)
    }

    fn append(&mut self, rt: &impl Abort, from: u32, to: u32) {
        assert!(rt; from < self.count && to < self.count && from != to);
        self.pool.append(from, to);
    }

    fn clear(&mut self, rt: &impl Abort, list: u32) {
        assert!(rt; list < self.count);
        self.pool.clear(list);
    }

    fn front(&self, rt: &impl Abort, list: u32) -> Option<i64> {
        assert!(rt; list < self.count);
        self.pool.front(list)
    }

    fn len(&self, rt: &impl Abort, list: u32) -> u32 {
        assert!(rt; list < self.count);
        self.pool.len(list)
    }

    fn free(&self) -> u32 {
        self.pool.free()
    }
}

#[test]
fn lists_share_the_nodes(rt: HostRuntime) -> Result<(), Fail> {
    let mut pool = Lists::new(rt.alloc(), 2, 3)?;
    assert_same(&rt, pool.push(&rt, 0, 5), Ok(()));
    assert_same(&rt, pool.push(&rt, 1, 6), Ok(()));
    assert_same(&rt, pool.push(&rt, 0, 7), Ok(()));
    assert_same(&rt, pool.push(&rt, 1, 8), Err(8));
    pool.append(&rt, 1, 0);
    assert_same(
        &rt,
        (pool.len(&rt, 0), pool.len(&rt, 1), pool.free()),
        (3, 0, 0),
    );
    assert_same(
        &rt,
        (pool.front(&rt, 0), pool.front(&rt, 1)),
        (Some(5), None),
    );
    assert_same(&rt, pool.pop(&rt, 0), Some(5));
    assert_same(&rt, pool.push(&rt, 0, 9), Ok(()));
    assert_same(&rt, pool.pop(&rt, 0), Some(7));
    assert_same(&rt, pool.push(&rt, 0, 10), Ok(()));
    assert_same(&rt, pool.pop(&rt, 0), Some(6));
    assert_same(&rt, pool.front(&rt, 0), Some(9));
    pool.clear(&rt, 0);
    assert_same(&rt, (pool.len(&rt, 0), pool.free()), (0, 3));
    assert_same(&rt, pool.pop(&rt, 0), None);
    Ok(())
}

// After each of these every node can still be used, and in order.
#[test]
fn no_node_is_lost(rt: HostRuntime) -> Result<(), Fail> {
    let mut pool = Lists::new(rt.alloc(), 3, 3)?;
    assert_same(&rt, pool.push(&rt, 0, 1), Ok(()));
    assert_same(&rt, pool.push(&rt, 0, 2), Ok(()));
    pool.append(&rt, 0, 1);
    pool.append(&rt, 2, 1);
    pool.append(&rt, 1, 2);
    assert_same(
        &rt,
        (pool.len(&rt, 0), pool.len(&rt, 1), pool.len(&rt, 2)),
        (0, 0, 2),
    );
    pool.clear(&rt, 0);
    pool.clear(&rt, 2);
    assert_same(&rt, pool.free(), 3);
    assert_same(&rt, pool.push(&rt, 1, 3), Ok(()));
    assert_same(&rt, pool.push(&rt, 1, 4), Ok(()));
    assert_same(&rt, pool.push(&rt, 1, 5), Ok(()));
    assert_same(&rt, pool.pop(&rt, 1), Some(3));
    assert_same(&rt, pool.pop(&rt, 1), Some(4));
    assert_same(&rt, pool.pop(&rt, 1), Some(5));
    assert_same(&rt, pool.free(), 3);
    Ok(())
}

#[test]
fn numbers_above_the_limits_are_refused(rt: HostRuntime) -> Result<(), Fail> {
    let alloc = rt.alloc();
    for (lists, nodes, expected) in [
        (1_048_577, 16_777_217, Some(PoolError::TooManyLists)),
        (1_048_577, 0, Some(PoolError::TooManyLists)),
        (1, 16_777_217, Some(PoolError::TooManyNodes)),
        (1_048_576, 0, None),
        (0, 1_000, None),
    ] {
        let refused = NodePool::make(alloc, lists, nodes, 0i64).err();
        assert_same(&rt, (lists, nodes, refused), (lists, nodes, expected));
    }
    Ok(())
}
