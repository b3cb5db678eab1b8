//! Arrays of values of one kind.
ghost use Rattle.std.specs.Prelude.{◌≡◌, suc, map, IfOk, IfSome};
ghost use Rattle.std.specs.List.{AllByRecursion};
ghost use Rattle.serde_json.specs.View.{view, items_view};
ghost use Rattle.json_values.specs.Lists.{list_json, list_in, items_in};
ghost use Rattle.json_values.specs.ListLaws.{list_back, list_plain, list_shallow};

use crate::canonical::Json;
use serde_json::Value;
use std::alloc::{AllocError, Global};
use tcf_values::Sequence;

/// The values of the items, if each is of the kind.
#[tactic(auto, using(crate::proofs::Items::all_more))]
fn items_of<T: Json>(alloc: Global, items: &[Value]) -> Result<Option<Sequence<T>>, AllocError>
    ensures value { IfOk result (λ found. found ≡ items_in T.json_in (items_view items.now)) }
    ensures within { IfOk result (λ found. IfSome found (AllByRecursion T.IsWithin)) }
{
    let mut found = Sequence::new(alloc);
    for item in items {
        match T::from_value(alloc, item)? {
            Some(one) => found.push(one)?,
            None => return Ok(None),
        }
    }
    Ok(Some(found))
}

/// The canonical forms of the items.
fn values_of<T: Json>(alloc: Global, items: &[T]) -> Result<Vec<Value>, AllocError>
    requires { AllByRecursion T.IsWithin items.now }
    ensures { IfOk result (λ values. map view values.items ≡ map T.json items.now) }
{
    let mut values = Vec::new(alloc);
    for item in items {
        serde_json::push(&mut values, item.to_value(alloc)?)?;
    }
    Ok(values)
}

impl<T: Json> Json for Sequence<T> {
    ghost json = { list_json T.json };

    ghost json_in = { list_in T.json_in };

    ghost IsWithin = { AllByRecursion T.IsWithin };

    ghost nesting = { suc T.nesting };

    fn to_value(&self, alloc: Global) -> Result<Value, AllocError> {
        Ok(Value::Array(values_of(alloc, self.as_slice())?))
    }

    fn from_value(alloc: Global, value: &Value) -> Result<Option<Self>, AllocError> {
        if value.is_null() {
            return Ok(Some(Sequence::new(alloc)));
        }
        match value.as_array() {
            Some(items) => items_of(alloc, items),
            None => Ok(None),
        }
    }

    ghost reads_back = { list_back T.json T.json_in T.IsWithin T.reads_back };

    ghost plain = { list_plain T.json T.plain };

    ghost shallow = { list_shallow T.json T.nesting T.shallow };
}
