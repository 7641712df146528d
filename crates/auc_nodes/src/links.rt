//! Lists of nodes: the ends of a list, and how two are joined.

ghost use Rattle.std.specs.Prelude.{◌≡◌, ◌+◌, ◌<◌, ◌++◌, ◌^◌, length, slice_set, vec_len, vec_capacity};
ghost use Rattle.auc_nodes.specs.Links.{CanJoin, EndsWith, IsJoined, behind, end_of, grown, links_of, items_of};
ghost use Rattle.auc_nodes.specs.Links.{nodes_from, single};

// A place for an item, and the number of the node after it in its list.
#[derive(Clone, Copy)]
pub struct Node<T> {
    pub item: T,
    pub next: u32,
}

// The first and the last node of a list, and the number of its nodes. With none the first two mean nothing.
#[derive(Clone, Copy)]
pub struct Ends {
    pub first: u32,
    pub last: u32,
    pub len: u32,
}

// Joins the second list of nodes after the first, and returns the ends of both together. Writes one link at most.
#[inline]
pub(crate) fn join<T: Copy>(nodes: &mut Vec<Node<T>>, front: Ends, back: Ends) -> Ends
    requires { CanJoin (links_of nodes.old.items) front back }
    ensures last { EndsWith (nodes_from (links_of nodes.old.items) back) back.last
        → EndsWith (nodes_from (links_of nodes.old.items) front ++ nodes_from (links_of nodes.old.items) back)
        result.last }
    ensures joined { IsJoined (links_of nodes.old.items) (links_of nodes.new.items) front back result }
    ensures items { items_of nodes.new.items ≡ items_of nodes.old.items }
    ensures room { vec_capacity nodes.new ≡ vec_capacity nodes.old }
{
    if front.len == 0 {
        return back;
    }
    if back.len == 0 {
        return front;
    }
    nodes[front.last as usize].next = back.first;
    Ends {
        first: front.first,
        last: back.last,
        len: front.len + back.len,
    }
}

// Links a node after a list. Writes one link at most, and only the fields that change: most calls need no more.
#[inline(always)]
pub(crate) fn link_behind<T: Copy>(
    nodes: &mut Vec<Node<T>>,
    ends: &mut Vec<Ends>,
    list: usize,
    node: u32,
)
    requires list { list < length ends.old.items }
    requires can { CanJoin (links_of nodes.old.items) (end_of ends.old.items list) (single node) }
    ensures joined { IsJoined (links_of nodes.old.items) (links_of nodes.new.items) (end_of ends.old.items list)
        (single node) (behind (end_of ends.old.items list) node) }
    ensures last { EndsWith (nodes_from (links_of nodes.old.items) (single node)) node
        → EndsWith
        (nodes_from (links_of nodes.old.items) (end_of ends.old.items list) ++ nodes_from (links_of nodes.old.items)
        (single node))
        node }
    ensures items { items_of nodes.new.items ≡ items_of nodes.old.items }
    ensures room { vec_capacity nodes.new ≡ vec_capacity nodes.old }
    ensures ends { ends.new.items ≡ slice_set ends.old.items list (behind (end_of ends.old.items list) node) }
{
    let list = &mut ends[list];
    if list.len == 0 {
        list.first = node;
    } else {
        nodes[list.last as usize].next = node;
    }
    list.last = node;
    list.len += 1;
}

// Links a node that was never used after a list, with this item. Not inlined, so that the push of a used node, which
// nearly all are, keeps its values in registers.
#[cold]
#[inline(never)]
pub(crate) fn link_fresh<T: Copy>(
    nodes: &mut Vec<Node<T>>,
    ends: &mut Vec<Ends>,
    list: usize,
    item: T,
)
    requires room { vec_len nodes.old < vec_capacity nodes.old }
    requires few { length nodes.old.items < 2 ^ 32 }
    requires list { list < length ends.old.items }
    requires can { CanJoin (links_of (grown nodes.old.items item)) (end_of ends.old.items list)
        (single (length nodes.old.items)) }
    ensures joined { IsJoined (links_of (grown nodes.old.items item)) (links_of nodes.new.items)
        (end_of ends.old.items list) (single (length nodes.old.items))
        (behind (end_of ends.old.items list) (length nodes.old.items)) }
    ensures last { EndsWith (nodes_from (links_of (grown nodes.old.items item)) (single (length nodes.old.items)))
        (length nodes.old.items)
        → EndsWith
        (nodes_from (links_of (grown nodes.old.items item)) (end_of ends.old.items list) ++ nodes_from (links_of
        (grown nodes.old.items item)) (single (length nodes.old.items)))
        (length nodes.old.items) }
    ensures items { items_of nodes.new.items ≡ items_of (grown nodes.old.items item) }
    ensures ends { ends.new.items ≡ slice_set ends.old.items list (behind (end_of ends.old.items list)
        (length nodes.old.items)) }
    ensures room { vec_capacity nodes.new ≡ vec_capacity nodes.old }
{
    let node = nodes.len() as u32;
    nodes.push_reserved(Node { item, next: 0 });
    link_behind(nodes, ends, list, node);
}

// Lets a list begin with another node, and have this many. Its last one stays.
#[inline]
pub(crate) fn set_front(ends: &mut Vec<Ends>, list: usize, first: u32, len: u32)
    requires { list < length ends.old.items }
    ensures { ends.new.items ≡ slice_set ends.old.items list
        (record { first = first; last = (end_of ends.old.items list).last; len = len }) }
{
    let list = &mut ends[list];
    list.first = first;
    list.len = len;
}
