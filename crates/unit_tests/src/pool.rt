//! What no clause says: that calls succeed where there is memory, and how a worked pool goes.
ghost use Rattle.std.specs.Prelude.{◌≡◌, ◌<◌, length};

use link_pool::{Link, Pool};
use std::process::Abort;
use std::test::Fail;

/// A list has these items and no others.
fn assert_items(rt: &(impl Abort + AllocGlobal), pool: &Pool<char>, list: usize, items: &str) {
    let mut at = pool.first(list);
    for expected in items.chars() {
        match at {
            Some(key) => {
                assert_eq!(rt; pool.item(key), Some(&expected));
                at = pool.after(list, key);
            }
            None => assert!(rt; false, "the list is too short"),
        }
    }
    assert_eq!(rt; at, None);
}

/// The node of a key has this link in a list.
fn assert_link(
    rt: &(impl Abort + AllocGlobal),
    pool: &Pool<char>,
    key: usize,
    list: usize,
    neighbours: (Option<usize>, Option<usize>),
) {
    let found = match pool.nodes().get(key) {
        Some(node) => node.link(list),
        None => None,
    };
    match found {
        Some(Link { before, next, .. }) => assert_eq!(rt; (before, next), neighbours),
        None => assert!(rt; false, "no link"),
    }
}

fn push(pool: &mut Pool<char>, list: usize, second: usize, item: char) -> Option<usize>
    requires list { list < length pool.old.lists }
    requires second { second < length pool.old.lists }
    ensures { length pool.new.lists ≡ length pool.old.lists }
{
    pool.push(list, Some(second), item).ok()
}

/// Puts three items into a pool of three lists, each in two of them.
fn put_three(pool: &mut Pool<char>) -> Option<[usize; 3]>
    requires { length pool.old.lists ≡ 3 }
{
    Some([
        push(pool, 0, 1, 'a')?,
        push(pool, 0, 2, 'b')?,
        push(pool, 0, 1, 'c')?,
    ])
}

fn assert_lists(rt: &(impl Abort + AllocGlobal), pool: &Pool<char>, lists: [&str; 3]) {
    let [first, second, third] = lists;
    assert_items(rt, pool, 0, first);
    assert_items(rt, pool, 1, second);
    assert_items(rt, pool, 2, third);
}

/// Takes out the second of three items.
fn take_second(rt: &(impl Abort + AllocGlobal), pool: &mut Pool<char>, keys: [usize; 3]) {
    let [_, b, _] = keys;
    assert_eq!(rt; pool.unlink(b), Some('b'));
    assert_eq!(rt; pool.unlink(b), None);
    assert_lists(rt, pool, ["ac", "ac", ""]);
}

/// Moves the first of the two items that are left behind the other, in one list.
fn move_first(rt: &(impl Abort + AllocGlobal), pool: &mut Pool<char>, keys: [usize; 3]) {
    let [a, b, c] = keys;
    assert!(rt; pool.move_last(0, a));
    assert!(rt; !pool.move_last(2, a) && !pool.move_last(3, a) && !pool.move_last(0, b));
    assert_lists(rt, pool, ["ca", "ac", ""]);
    assert_link(rt, pool, c, 0, (None, Some(a)));
    assert_link(rt, pool, a, 0, (Some(c), None));
    assert_link(rt, pool, c, 1, (Some(a), None));
}

/// Takes out the items of a list.
fn take_list(rt: &(impl Abort + AllocGlobal), pool: &mut Pool<char>) {
    assert_eq!(rt; pool.unlink_list(3), 0);
    assert_eq!(rt; pool.unlink_list(1), 2);
    assert_lists(rt, pool, ["", "", ""]);
    assert_eq!(rt; pool.nodes().len(), 0);
}

fn put_and_take_out(rt: &(impl Abort + AllocGlobal), pool: &mut Pool<char>) -> Result<(), Fail>
    requires { length pool.old.lists ≡ 3 }
{
    let keys = put_three(pool).ok_or("no memory")?;
    assert_lists(rt, pool, ["abc", "ac", "b"]);
    take_second(rt, pool, keys);
    move_first(rt, pool, keys);
    take_list(rt, pool);
    Ok(())
}

#[test]
fn items_stand_in_two_lists(rt: HostRuntime) -> Result<(), Fail> {
    let mut pool = Pool::new(rt.alloc(), 3)?;
    put_and_take_out(&rt, &mut pool)
}
