//! The object that goes with the state of a suspended thread: which breakpoints it hit.
ghost use Rattle.std.specs.Prelude.{◌≡◌, ◌≤◌, false, IfOk};
ghost use Rattle.serde_json.specs.Data.{depth};
ghost use Rattle.serde_json.specs.View.{view};
ghost use Rattle.serde_json.specs.Written.{has_float};
ghost use Rattle.json_values.specs.States.{hits_json, hits_in, HitsRoundTrip};

use crate::canonical::Json;
use crate::fields::{default_member, is_object};
use serde_json::{Value, json};
use std::alloc::{AllocError, Global};
use tcf_values::Texts;

/// The object of the IDs of the breakpoints that were hit. It is empty where there are none.
#[tactic(auto, using(crate::specs::StateLaws::hits_plain, crate::specs::StateLaws::hits_shallow))]
pub fn hits_value(alloc: Global, hits: &Texts) -> Result<Value, AllocError>
    ensures value { IfOk result (λ value. view value ≡ hits_json hits.now) }
    ensures plain { has_float (hits_json hits.now) ≡ false }
    ensures shallow { depth (hits_json hits.now) ≤ 2 }
{
    if hits.is_empty() {
        return json!(in alloc; {});
    }
    let list = hits.to_value(alloc)?;
    json!(in alloc; {"BPs": list})
}

/// The IDs of the breakpoints that an object says were hit; none where the value is of another kind.
pub fn hits_of(alloc: Global, value: &Value) -> Result<Option<Texts>, AllocError>
    ensures { IfOk result (λ found. found ≡ hits_in (view value.now)) }
{
    if !is_object(value) {
        return Ok(None);
    }
    default_member(alloc, value, "BPs", Texts::new(alloc))
}

/// The law that what is written of the breakpoints that were hit is read as them.
#[tactic(auto, using(crate::specs::StateLaws::hits_back))]
pub fn hits_round_trip()
    ensures { HitsRoundTrip }
{}
