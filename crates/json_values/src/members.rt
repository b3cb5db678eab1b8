//! The members of an object. One that is `null` counts as absent.
ghost use Rattle.std.specs.Prelude.{◌≡◌, option_map, option_and_then, IfOk, OnOk, OnErr, IfSome};
ghost use Rattle.serde_json.specs.Data.{put as with_member};
ghost use Rattle.serde_json.specs.View.{view, members_view};
ghost use Rattle.json_values.specs.Members.{member_of, optional, put_if};

use crate::canonical::Json;
use serde_json::{Map, Value};
use std::alloc::{AllocError, Global};

/// The member of this name; none where it is absent or `null`, or where the value is no object.
pub fn member<'v>(value: &'v Value, name: &str) -> Option<&'v Value>
    ensures { option_map (λ v. view v.now) result ≡ member_of name.now (view value.now) }
{
    match value.get(name) {
        Some(found) if !found.is_null() => Some(found),
        _ => None,
    }
}

/// A member that must be there, as a kind.
pub fn required_member<T: Json>(
    alloc: Global,
    value: &Value,
    name: &str,
) -> Result<Option<T>, AllocError>
    ensures value { IfOk result (λ found. found ≡ option_and_then T.json_in (member_of name.now (view value.now))) }
    ensures within { IfOk result (λ found. IfSome found T.IsWithin) }
{
    match member(value, name) {
        Some(found) => T::from_value(alloc, found),
        None => Ok(None),
    }
}

/// A member that may be absent, as a kind: none inside where it is absent, and none at all where it is of another kind.
pub fn optional_member<T: Json>(
    alloc: Global,
    value: &Value,
    name: &str,
) -> Result<Option<Option<T>>, AllocError>
    ensures value { IfOk result (λ found. found ≡ optional T.json_in (member_of name.now (view value.now))) }
    ensures within { IfOk result (λ found. IfSome found (λ item. IfSome item T.IsWithin)) }
{
    match member(value, name) {
        Some(found) => Ok(T::from_value(alloc, found)?.map(Some)),
        None => Ok(Some(None)),
    }
}

/// Puts a member of this name.
pub fn put_member<T: Json>(
    alloc: Global,
    map: &mut Map<String, Value>,
    name: &str,
    item: &T,
) -> Result<(), AllocError>
    requires { T.IsWithin item.now }
    ensures ok { OnOk result (members_view map.new.entries ≡ with_member name.now (T.json item.now) (members_view map.old.entries)) }
    ensures err { OnErr result (map.new.entries ≡ map.old.entries) }
{
    serde_json::put(map, alloc, name, item.to_value(alloc)?)
}

/// Puts a member of this name, where there is one.
pub fn put_some<T: Json>(
    alloc: Global,
    map: &mut Map<String, Value>,
    name: &str,
    item: &Option<T>,
) -> Result<(), AllocError>
    requires { IfSome item.now T.IsWithin }
    ensures ok { OnOk result (members_view map.new.entries ≡ put_if name.now (option_map T.json item.now) (members_view map.old.entries)) }
    ensures err { OnErr result (map.new.entries ≡ map.old.entries) }
{
    match item {
        Some(item) => put_member(alloc, map, name, item),
        None => Ok(()),
    }
}
