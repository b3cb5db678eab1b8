//! The peers that a locator knows.
ghost use Rattle.std.specs.Prelude.{◌≡◌, ◌≤◌, map, false, IfOk};
ghost use Rattle.serde_json.specs.Data.{depth};
ghost use Rattle.serde_json.specs.View.{view, items_view};
ghost use Rattle.serde_json.specs.Written.{has_float};
ghost use Rattle.json_values.specs.Lists.{items_in};
ghost use Rattle.json_values.specs.Peers.{peer_json, peer_in, peers_json, peers_in, PeersRoundTrip};

use crate::canonical::Json;
use crate::members::required_member;
use serde_json::{Value, json};
use std::alloc::{AllocError, Global};
use tcf_values::{Text, Texts};

/// The objects of the peers.
fn values_of(alloc: Global, ids: &[Text]) -> Result<Vec<Value>, AllocError>
    ensures { IfOk result (λ values. map view values.items ≡ map peer_json ids.now) }
{
    let mut values = Vec::new(alloc);
    for id in ids {
        serde_json::push(&mut values, json!(in alloc; {"ID": id.as_str()})?)?;
    }
    Ok(values)
}

/// The array of the peers of these IDs.
#[tactic(auto, using(crate::specs::StateLaws::peers_plain, crate::specs::StateLaws::peers_shallow))]
pub fn peers_value(alloc: Global, ids: &Texts) -> Result<Value, AllocError>
    ensures value { IfOk result (λ value. view value ≡ peers_json ids.now) }
    ensures plain { has_float (peers_json ids.now) ≡ false }
    ensures shallow { depth (peers_json ids.now) ≤ 2 }
{
    Ok(Value::Array(values_of(alloc, ids.as_slice())?))
}

/// The IDs of the items, if each is a peer.
#[tactic(auto, using(crate::proofs::Items::item_next, crate::proofs::Items::item_bad))]
fn ids_of(alloc: Global, items: &[Value]) -> Result<Option<Texts>, AllocError>
    ensures { IfOk result (λ found. found ≡ items_in peer_in (items_view items.now)) }
{
    let mut ids = Texts::new(alloc);
    for item in items {
        match required_member(alloc, item, "ID")? {
            Some(id) => ids.push(id)?,
            None => return Ok(None),
        }
    }
    Ok(Some(ids))
}

/// The IDs of an array of peers; none where the value is of another kind.
pub fn peers_of(alloc: Global, value: &Value) -> Result<Option<Texts>, AllocError>
    ensures { IfOk result (λ found. found ≡ peers_in (view value.now)) }
{
    if value.is_null() {
        return Ok(Some(Texts::new(alloc)));
    }
    match value.as_array() {
        Some(items) => ids_of(alloc, items.as_slice()),
        None => Ok(None),
    }
}

/// The law that what is written of peers is read as them.
#[tactic(auto, using(crate::specs::StateLaws::peers_back))]
pub fn peers_round_trip()
    ensures { PeersRoundTrip }
{}
