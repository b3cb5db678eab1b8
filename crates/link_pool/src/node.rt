//! The nodes of a pool.
ghost use Rattle.std.specs.Prelude.{◌≡◌, Some};
ghost use Rattle.link_pool.specs.Nodes.{link_of};
ghost use Rattle.link_pool.specs.Steps.{alone, node_for, node_put, with_before, with_next};

/// A place in a list.
#[derive(Clone, Copy, Debug)]
pub struct Link {
    /// The number of the list.
    pub list: usize,
    /// The key of the item before it; `None` at the front of the list.
    pub before: Option<usize>,
    /// The key of the item behind it; `None` at the end of the list.
    pub next: Option<usize>,
}

/// An item with its places in one list or two different ones.
#[derive(Drop)]
pub struct Node<T> {
    /// The item.
    pub item: T,
    /// Its place in a list.
    pub main: Link,
    /// Its place in another list, where it stands in two.
    pub second: Option<Link>,
}

/// The first and the last key of a list.
#[derive(Clone, Copy)]
pub(crate) struct Ends {
    pub(crate) first: Option<usize>,
    pub(crate) last: Option<usize>,
}

impl Link {
    /// A link of the list with no neighbours yet.
    fn alone(list: usize) -> Link
        ensures { result ≡ alone list }
    {
        Link {
            list,
            before: None,
            next: None,
        }
    }
}

impl<T> Node<T> {
    /// A node of a list, and of a second one where there is one, with no neighbours yet.
    pub(crate) fn alone(item: T, list: usize, other: Option<usize>) -> Node<T>
        ensures { result ≡ node_for item list other }
    {
        Node {
            item,
            main: Link::alone(list),
            second: match other {
                Some(list) => Some(Link::alone(list)),
                None => None,
            },
        }
    }

    /// The item's place in this list; `None` exactly where it doesn't stand in it.
    pub fn link(&self, list: usize) -> Option<Link>
        ensures { result ≡ link_of list self.now }
    {
        if self.main.list == list {
            return Some(self.main);
        }
        match self.second {
            Some(link) if link.list == list => Some(link),
            _ => None,
        }
    }

    pub(crate) fn set_next(&mut self, list: usize, next: Option<usize>)
        ensures { self.new ≡ node_put list (with_next next) self.old }
    {
        if self.main.list == list {
            self.main.next = next;
        } else if let Some(link) = &mut self.second {
            if link.list == list {
                link.next = next;
            }
        }
    }

    pub(crate) fn set_before(&mut self, list: usize, before: Option<usize>)
        ensures { self.new ≡ node_put list (with_before before) self.old }
    {
        if self.main.list == list {
            self.main.before = before;
        } else if let Some(link) = &mut self.second {
            if link.list == list {
                link.before = before;
            }
        }
    }
}
