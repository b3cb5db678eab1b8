//! The members of an object that have a value also where they are absent.
ghost use Rattle.std.specs.Prelude.{◌≡◌, IfOk, IfSome};
ghost use Rattle.serde_json.specs.View.{view};
ghost use Rattle.json_values.specs.Members.{member_of, or_else};
ghost use Rattle.json_values.specs.Words.{is_object as stands_for_object};

use crate::canonical::Json;
use crate::members::member;
use serde_json::Value;
use std::alloc::{AllocError, Global};

/// A member as a kind, or `absent` where there is none; none where it is of another kind.
pub fn default_member<T: Json>(
    alloc: Global,
    value: &Value,
    name: &str,
    absent: T,
) -> Result<Option<T>, AllocError>
    requires { T.IsWithin absent }
    ensures value { IfOk result (λ found. found ≡ or_else absent T.json_in (member_of name.now (view value.now))) }
    ensures within { IfOk result (λ found. IfSome found T.IsWithin) }
{
    match member(value, name) {
        Some(found) => T::from_value(alloc, found),
        None => Ok(Some(absent)),
    }
}

/// Whether the value is an object, or `null` in its place.
pub fn is_object(value: &Value) -> bool
    ensures { result ≡ stands_for_object (view value.now) }
{
    value.is_null() || value.is_object()
}
