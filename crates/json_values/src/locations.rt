//! Parts of registers.
ghost use Rattle.std.specs.Prelude.{◌≡◌, IfOk, IfSome};
ghost use Rattle.serde_json.specs.View.{view, items_view};
ghost use Rattle.json_values.specs.Locations.{IsLocation, LocationRoundTrip, location_json, location_in, location_from, location_of};
ghost use Rattle.json_values.specs.LocationsLaws.{location_back, location_plain, location_shallow};

use crate::canonical::Json;
use serde_json::Value;
use std::alloc::{AllocError, Global};
use tcf_values::{Location, Text};

/// The location of three elements.
fn location_of_three(
    alloc: Global,
    register: &Value,
    offset: &Value,
    size: &Value,
) -> Result<Option<Location>, AllocError>
    ensures value { IfOk result (λ found. found ≡ location_from (view register.now) (view offset.now) (view size.now)) }
    ensures within { IfOk result (λ found. IfSome found IsLocation) }
{
    let register = Text::from_value(alloc, register)?;
    let offset = i128::from_value(alloc, offset)?;
    let size = i128::from_value(alloc, size)?;
    match (register, offset, size) {
        (Some(register), Some(offset), Some(size)) => Ok(Some(Location {
            register,
            offset,
            size,
        })),
        _ => Ok(None),
    }
}

/// The location of these elements, if they are three.
#[tactic(auto, using(crate::proofs::Items::not_three))]
fn location_of_items(alloc: Global, items: &[Value]) -> Result<Option<Location>, AllocError>
    ensures value { IfOk result (λ found. found ≡ location_of (items_view items.now)) }
    ensures within { IfOk result (λ found. IfSome found IsLocation) }
{
    match items {
        [register, offset, size] => location_of_three(alloc, register, offset, size),
        _ => Ok(None),
    }
}

impl Json for Location {
    ghost json = { location_json };

    ghost json_in = { location_in };

    ghost IsWithin = { IsLocation };

    ghost nesting = { 1 };

    fn to_value(&self, alloc: Global) -> Result<Value, AllocError> {
        let mut items = Vec::new(alloc);
        serde_json::push(&mut items, self.register.to_value(alloc)?)?;
        serde_json::push(&mut items, self.offset.to_value(alloc)?)?;
        serde_json::push(&mut items, self.size.to_value(alloc)?)?;
        Ok(Value::Array(items))
    }

    fn from_value(alloc: Global, value: &Value) -> Result<Option<Self>, AllocError> {
        match value.as_array() {
            Some(items) => location_of_items(alloc, items.as_slice()),
            None => Ok(None),
        }
    }

    ghost reads_back = { location_back };

    ghost plain = { location_plain };

    ghost shallow = { location_shallow };
}

/// The law that what is written of a location is read as it.
pub fn location_round_trip()
    ensures { LocationRoundTrip }
{}
