//! The status of a breakpoint: its instances.
ghost use Rattle.std.specs.Prelude.{◌≡◌, codes, false, map, IfOk, IfSome};
ghost use Rattle.serde_json.specs.View.{view};
ghost use Rattle.serde_json.specs.Written.{has_float};
ghost use Rattle.json_values.specs.Members.{member_of};
ghost use Rattle.json_values.specs.Statuses.{count_by, instance_json, instance_in, place_in, IsCount, IsPlace, IsInstance, status_json, status_in, IsStatus};
ghost use Rattle.json_values.specs.ReplyLaws.{instance_back, instance_plain, instance_shallow, status_back, status_plain, status_shallow};

use crate::canonical::Json;
use crate::fields::{default_member, is_object};
use crate::members::member;
use serde_json::{Value, json};
use std::alloc::{AllocError, Global};
use tcf_values::{BpStatus, Instance, Instances, Place, Text};

/// Where the instance of an object stands: an error wins over an address, and one of the two must be there.
fn place_of(alloc: Global, value: &Value) -> Result<Option<Place>, AllocError>
    ensures value { IfOk result (λ found. found ≡ place_in (view value.now)) }
    ensures within { IfOk result (λ found. IfSome found IsPlace) }
{
    if let Some(error) = member(value, "Error") {
        return Ok(Text::from_value(alloc, error)?.map(Place::Error));
    }
    match member(value, "Address") {
        Some(address) => Ok(u32::from_value(alloc, address)?.map(Place::Address)),
        None => Ok(None),
    }
}

/// The count of the instance of an object that stands there: 0 where it isn't said, and beside an error.
fn count_of(alloc: Global, value: &Value, place: &Place) -> Result<Option<u32>, AllocError>
    ensures value { IfOk result (λ found. found ≡ count_by (member_of (codes "HitCount") (view value.now)) place.now) }
    ensures within { IfOk result (λ found. IfSome found (IsCount place.now)) }
{
    match place {
        Place::Address(_) => default_member(alloc, value, "HitCount", 0),
        Place::Error(_) => Ok(Some(0)),
    }
}

/// The object of an instance, whose address and count are of 32 bits.
fn instance_value(alloc: Global, instance: &Instance) -> Result<Value, AllocError>
    ensures { IfOk result (λ value. view value ≡ instance_json instance.now) }
{
    let context = instance.context.as_str();
    match &instance.place {
        Place::Address(address) => {
            json!(in alloc; {
                "Address": *address,
                "HitCount": instance.count,
                "LocationContext": context
            })
        }
        Place::Error(error) => {
            json!(in alloc; {"Error": error.as_str(), "LocationContext": context})
        }
    }
}

/// The objects of instances.
fn instance_values(alloc: Global, instances: &[Instance]) -> Result<Vec<Value>, AllocError>
    ensures { IfOk result (λ values. map view values.items ≡ map instance_json instances.now) }
{
    let mut values = Vec::new(alloc);
    for instance in instances {
        serde_json::push(&mut values, instance_value(alloc, instance)?)?;
    }
    Ok(values)
}

/// The object of a status.
#[tactic(auto, using(crate::specs::ReplyLaws::status_plain))]
pub fn status_value(alloc: Global, status: &BpStatus) -> Result<Value, AllocError>
    ensures value { IfOk result (λ value. view value ≡ status_json status.now) }
    ensures plain { has_float (status_json status.now) ≡ false }
{
    let instances = Value::Array(instance_values(alloc, status.instances.as_slice())?);
    json!(in alloc; {"Instances": instances})
}

impl Json for Instance {
    ghost json = { instance_json };

    ghost json_in = { instance_in };

    ghost IsWithin = { IsInstance };

    ghost nesting = { 1 };

    fn to_value(&self, alloc: Global) -> Result<Value, AllocError> {
        instance_value(alloc, self)
    }

    fn from_value(alloc: Global, value: &Value) -> Result<Option<Self>, AllocError> {
        let Some(place) = place_of(alloc, value)? else {
            return Ok(None);
        };
        let Some(count) = count_of(alloc, value, &place)? else {
            return Ok(None);
        };
        let Some(context) = default_member(
            alloc,
            value,
            "LocationContext",
            Text::from_str(alloc, "")?,
        )?
        else {
            return Ok(None);
        };
        Ok(Some(Instance {
            context,
            place,
            count,
        }))
    }

    ghost reads_back = { instance_back };

    ghost plain = { instance_plain };

    ghost shallow = { instance_shallow };
}

impl Json for BpStatus {
    ghost json = { status_json };

    ghost json_in = { status_in };

    ghost IsWithin = { IsStatus };

    ghost nesting = { 3 };

    fn to_value(&self, alloc: Global) -> Result<Value, AllocError> {
        status_value(alloc, self)
    }

    fn from_value(alloc: Global, value: &Value) -> Result<Option<Self>, AllocError> {
        if !is_object(value) {
            return Ok(None);
        }
        match default_member(alloc, value, "Instances", Instances::new(alloc))? {
            Some(instances) => Ok(Some(BpStatus { instances })),
            None => Ok(None),
        }
    }

    ghost reads_back = { status_back };

    ghost plain = { status_plain };

    ghost shallow = { status_shallow };
}
