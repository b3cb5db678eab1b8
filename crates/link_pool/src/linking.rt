//! How the nodes of a list are linked.
ghost use Rattle.std.specs.Prelude.{◌≡◌, Some};
ghost use Rattle.link_pool.specs.Chain.{picked};
ghost use Rattle.link_pool.specs.Steps.{also_attached, also_detached, also_longer, also_shorter, attached, detached, ends_attached, ends_detached, link_put, other_than, with_before, with_next};

use crate::node::{Ends, Link, Node};
use slab::Slab;

pub(crate) fn set_next<T>(
    nodes: &mut Slab<Node<T>>,
    list: usize,
    at: Option<usize>,
    next: Option<usize>,
)
    ensures { nodes.new ≡ link_put nodes.old list (with_next next) at }
{
    if let Some(key) = at {
        if let Some(node) = nodes.get_mut(key) {
            node.set_next(list, next);
        }
    }
}

pub(crate) fn set_before<T>(
    nodes: &mut Slab<Node<T>>,
    list: usize,
    at: Option<usize>,
    before: Option<usize>,
)
    ensures { nodes.new ≡ link_put nodes.old list (with_before before) at }
{
    if let Some(key) = at {
        if let Some(node) = nodes.get_mut(key) {
            node.set_before(list, before);
        }
    }
}

/// The end of a list once a node is gone: the node's other neighbour, where it stood at this end.
fn pick(beside: Option<usize>, end: Option<usize>, other: Option<usize>) -> Option<usize>
    ensures { result ≡ picked beside end other }
{
    match beside {
        None => other,
        Some(_) => end,
    }
}

/// Links a node behind the last of a list.
pub(crate) fn attach<T>(nodes: &mut Slab<Node<T>>, all: &mut Vec<Ends>, list: usize, key: usize)
    ensures nodes { nodes.new ≡ attached list key all.old.items nodes.old }
    ensures ends { all.new.items ≡ ends_attached list key all.old.items }
{
    if let Some(ends) = all.get_mut(list) {
        let last = ends.last;
        set_before(nodes, list, Some(key), last);
        set_next(nodes, list, Some(key), None);
        set_next(nodes, list, last, Some(key));
        *ends = Ends {
            first: ends.first.or(Some(key)),
            last: Some(key),
        };
    }
}

/// Links the neighbours that a link names with each other.
pub(crate) fn detach<T>(nodes: &mut Slab<Node<T>>, all: &mut Vec<Ends>, link: Link)
    ensures nodes { nodes.new ≡ detached link nodes.old }
    ensures ends { all.new.items ≡ ends_detached link all.old.items }
{
    set_next(nodes, link.list, link.before, link.next);
    set_before(nodes, link.list, link.next, link.before);
    if let Some(ends) = all.get_mut(link.list) {
        *ends = Ends {
            first: pick(link.before, ends.first, link.next),
            last: pick(link.next, ends.last, link.before),
        };
    }
}

/// The second list, where it is another than the first.
pub(crate) fn other_than(list: usize, second: Option<usize>) -> Option<usize>
    ensures { result ≡ other_than list second }
{
    match second {
        Some(other) if other != list => Some(other),
        _ => None,
    }
}

pub(crate) fn attach_second<T>(
    nodes: &mut Slab<Node<T>>,
    all: &mut Vec<Ends>,
    other: Option<usize>,
    key: usize,
)
    ensures nodes { nodes.new ≡ also_attached other key all.old.items nodes.old }
    ensures ends { all.new.items ≡ also_longer other key all.old.items }
{
    if let Some(list) = other {
        attach(nodes, all, list, key);
    }
}

pub(crate) fn detach_second<T>(nodes: &mut Slab<Node<T>>, all: &mut Vec<Ends>, second: Option<Link>)
    ensures nodes { nodes.new ≡ also_detached second nodes.old }
    ensures ends { all.new.items ≡ also_shorter second all.old.items }
{
    if let Some(link) = second {
        detach(nodes, all, link);
    }
}
