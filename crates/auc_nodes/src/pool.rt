//! The pool itself, and its calls.

ghost use Rattle.std.specs.Prelude.{[], ◌∷◌, ◌++◌, ◌≡◌, ◌≢◌, ◌+◌, ◌-◌, ◌<◌, ◌≤◌, List, length, slice_get, slice_set};
ghost use Rattle.std.specs.Prelude.{replicate, IfOk, IfErr, OnOk, MatchResult, MatchOption};
ghost use Rattle.auc_nodes.specs.Limits.{ListsFit, NodesFit, IsRefusedFor};
ghost use Rattle.auc_nodes.specs.Lists.{HasList, IsSound, empty_lists, free_of, list_of, used_of, with_list};
ghost use Rattle.auc_nodes.specs.Links.{no_ends};

use crate::error::PoolError;
use crate::limits::{MOST_LISTS, MOST_NODES};
use crate::links::{Ends, Node, join, link_behind, link_fresh, set_front};
use std::alloc::{AllocError, Global};
use std::marker::Model;

/// Lists that share a fixed number of nodes, each of which holds one item.
///
/// Lists are numbered from 0. No call but `make` takes memory, and each takes O(1) time.
///
/// Contracts see a pool as the `Lists` of `specs/Lists.antt`.
#[derive(Drop)]
pub struct NodePool<T: Copy> {
    // The nodes that were used. They are linked at their first use, so that `make` touches no memory of them.
    nodes: Vec<Node<T>>,

    // The number of nodes that were never used, for which memory is reserved.
    fresh: u32,

    // The ends of each list.
    ends: Vec<Ends>,

    // The ends of the nodes that were used and are free, of which the last one means nothing.
    free: Ends,
    blank: T,
}

impl<T: Copy> Model for NodePool<T> {
    ghost use Rattle.auc_nodes.specs.Lists.{Lists};

    ghost Value = { Lists T };

    ghost use Rattle.std.specs.Prelude.{◌∷◌, vec_capacity};
    ghost use Rattle.auc_nodes.specs.Links.{links_of};
    ghost use Rattle.auc_nodes.specs.Pool.{lists_of, with_fresh, IsKept};

    ghost view = { λ p. with_fresh p.fresh (lists_of p.blank p.nodes.items (p.free ∷ p.ends.items)) };

    ghost invariant = { λ p. IsKept (links_of p.nodes.items) (p.free ∷ p.ends.items) p.fresh (vec_capacity p.nodes) };
}

// A list that has no node.
const NO_ENDS: Ends = Ends {
    first: 0,
    last: 0,
    len: 0,
};

// The ends of empty lists.
fn new_ends(alloc: Global, lists: u32) -> Result<Vec<Ends>, AllocError>
    ensures { IfOk result (λ made. made.items ≡ replicate lists no_ends) }
{
    vec![in alloc; NO_ENDS; lists as usize]
}

impl<T: Copy> NodePool<T> {
    /// A pool whose lists are all empty.
    ///
    /// There are `lists` lists, and `nodes` items may be in them at a time. `blank` is any item, which is never handed
    /// out.
    ///
    /// Errors, in this order: `TooManyLists` above `MOST_LISTS`; `TooManyNodes` above `MOST_NODES`; `NoMemory` where
    /// memory was refused.
    ///
    /// Takes O(lists) time, and O(lists + nodes) memory, of which it touches that of the lists alone.
    pub fn make(alloc: Global, lists: u32, nodes: u32, blank: T) -> Result<NodePool<T>, PoolError>
        ensures made { IfOk result (λ pool. pool ≡ empty_lists lists nodes) }
        ensures within { OnOk result (ListsFit lists × NodesFit nodes) }
        ensures refused { IfErr result (IsRefusedFor lists nodes) }
    {
        if lists > MOST_LISTS {
            return Err(PoolError::TooManyLists);
        }
        if nodes > MOST_NODES {
            return Err(PoolError::TooManyNodes);
        }
        let Ok(made) = Vec::with_capacity(alloc, nodes as usize) else {
            return Err(PoolError::NoMemory);
        };
        let Ok(ends) = new_ends(alloc, lists) else {
            return Err(PoolError::NoMemory);
        };
        Ok(NodePool {
            nodes: made,
            fresh: nodes,
            ends,
            free: NO_ENDS,
            blank,
        })
    }

    /// The number of items of the list. Takes O(1) time.
    #[inline]
    pub fn len(&self, list: u32) -> u32
        requires { HasList self.now list }
        ensures { result ≡ length (list_of self.now list) }
    {
        self.ends[list as usize].len
    }

    /// The number of free nodes. Takes O(1) time.
    #[inline]
    pub fn free(&self) -> u32
        ensures free { result ≡ free_of self.now }
        ensures all { result + used_of self.now ≡ self.now.nodes }
    {
        self.free.len + self.fresh
    }

    /// The first item of the list. Takes O(1) time.
    #[inline]
    pub fn front(&self, list: u32) -> Option<T>
        requires { HasList self.now list }
        ensures { result ≡ slice_get (list_of self.now list) 0 }
    {
        let ends = self.ends[list as usize];
        if ends.len == 0 {
            None
        } else {
            Some(self.nodes[ends.first as usize].item)
        }
    }

    /// Appends the item to the list, or returns it where no node is free. Takes O(1) time.
    #[inline(always)]
    pub fn push_back(&mut self, list: u32, item: T) -> Result<(), T>
        requires { HasList self.old list }
        ensures { MatchResult result
            (λ _. (0 < free_of self.old) × (self.new ≡ with_list self.old list (list_of self.old list ++ item ∷ [])))
            (λ back. (free_of self.old ≡ 0) × (back ≡ item) × (self.new ≡ self.old)) }
    {
        if self.free.len == 0 {
            if self.fresh == 0 {
                return Err(item);
            }
            self.fresh -= 1;
            link_fresh(&mut self.nodes, &mut self.ends, list as usize, item);
            return Ok(());
        }
        let node = self.free.first;
        let next = self.nodes[node as usize].next;
        self.nodes[node as usize].item = item;
        self.free.first = next;
        self.free.len -= 1;
        link_behind(&mut self.nodes, &mut self.ends, list as usize, node);
        Ok(())
    }

    /// Takes the first item of the list. Takes O(1) time.
    #[inline(always)]
    pub fn pop_front(&mut self, list: u32) -> Option<T>
        requires { HasList self.old list }
        ensures { MatchOption result ((list_of self.old list ≡ []) × (self.new ≡ self.old))
            (λ item. (rest : List _) × (list_of self.old list ≡ item ∷ rest)
            × (self.new ≡ with_list self.old list rest)) }
    {
        let ends = self.ends[list as usize];
        if ends.len == 0 {
            return None;
        }
        let node = ends.first;
        let Node { item, next } = self.nodes[node as usize];
        self.nodes[node as usize].next = self.free.first;
        set_front(&mut self.ends, list as usize, next, ends.len - 1);
        self.free.first = node;
        self.free.len += 1;
        Some(item)
    }

    /// Appends all items of one list to another, and leaves the first empty. Takes O(1) time.
    #[inline]
    pub fn append(&mut self, from: u32, to: u32)
        requires from { HasList self.old from }
        requires to { HasList self.old to }
        requires two { from ≢ to }
        ensures { self.new ≡ with_list (with_list self.old from []) to (list_of self.old to ++ list_of self.old from) }
    {
        let back = self.ends[from as usize];
        let front = self.ends[to as usize];
        let joined = join(&mut self.nodes, front, back);
        self.ends[from as usize] = NO_ENDS;
        self.ends[to as usize] = joined;
    }

    /// Empties the list: its nodes are free. Takes O(1) time.
    #[inline]
    pub fn clear(&mut self, list: u32)
        requires { HasList self.old list }
        ensures { self.new ≡ with_list self.old list [] }
    {
        let front = self.ends[list as usize];
        let joined = join(&mut self.nodes, front, self.free);
        self.ends[list as usize] = NO_ENDS;
        self.free = joined;
    }

    /// The invariant of every pool. This is a law, and does nothing: proofs above cite it.
    pub fn every_pool_is_sound(&self)
        ensures { IsSound self.now }
    {
        let _ = &self.ends;
    }
}
