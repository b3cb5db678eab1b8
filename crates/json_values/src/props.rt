//! The properties of breakpoints, and their limits.
ghost use Rattle.std.specs.Prelude.{◌≡◌, true, false, codes, option_map, option_and_then, unwrap_or, nat_le, IfOk, IfSome, OnOk};
ghost use Rattle.std.specs.List.{list_all};
ghost use Rattle.serde_json.specs.View.{view, members_view};
ghost use Rattle.serde_json.specs.Written.{has_float};
ghost use Rattle.json_values.specs.Props.{BpRoundTrip, bp_json, bp_in, is_bp, is_short, is_location, are_contexts, is_ignore_count, bp_from};
ghost use Rattle.json_values.specs.PropsLaws.{bp_back, bp_plain, bp_shallow};
ghost use Rattle.json_values.specs.Members.{put_if};
ghost use Rattle.json_values.specs.Words.{word_json};

use crate::canonical::Json;
use crate::members::{optional_member, put_member, put_some, required_member};
use serde_json::{Map, Value};
use std::alloc::{AllocError, Global};
use tcf_values::{BpProps, Text, Texts};

/// Whether no byte is below 32.
fn is_printed(bytes: &[u8]) -> bool
    ensures { result ≡ list_all (λ b. nat_le 32 b) bytes.now }
{
    bytes.iter().all(|b| 32 <= *b)
}

/// Whether a text has at most so many bytes, and none below 32.
fn is_short_text(most: usize, text: &Text) -> bool
    ensures { result ≡ is_short most text.now }
{
    text.as_bytes().len() <= most && is_printed(text.as_bytes())
}

/// Whether a location has at most 255 bytes.
fn has_location(location: &Option<Text>) -> bool
    ensures { result ≡ is_location location.now }
{
    match location {
        Some(text) => is_short_text(255, text),
        None => true,
    }
}

/// Whether each is a text of at most 64 bytes.
fn are_short(texts: &[Text]) -> bool
    ensures { result ≡ list_all (is_short 64) texts.now }
{
    texts.iter().all(|text| is_short_text(64, text))
}

/// Whether there are at most 16 contexts of at most 64 bytes each.
fn has_contexts(contexts: &Option<Texts>) -> bool
    ensures { result ≡ are_contexts contexts.now }
{
    match contexts {
        Some(texts) => texts.len() <= 16 && are_short(texts.as_slice()),
        None => true,
    }
}

/// Whether at most a million hits pass.
fn has_ignore_count(ignore: Option<u32>) -> bool
    ensures { result ≡ is_ignore_count ignore }
{
    match ignore {
        Some(count) => count <= 1_000_000,
        None => true,
    }
}

/// Whether the properties are within their limits: an ID of 1 to 255 bytes, a location of at most 255, at most 16
/// contexts of at most 64 each, no byte below 32, and at most a million hits that pass.
pub fn is_within_limits(props: &BpProps) -> bool
    ensures { result ≡ is_bp props.now }
{
    !props.id.as_bytes().is_empty()
        && is_short_text(255, &props.id)
        && has_location(&props.location)
        && has_contexts(&props.contexts)
        && has_ignore_count(props.ignore)
}

/// The properties that are found; none where one is of another kind, or they aren't within their limits.
fn props_of(
    id: Option<Text>,
    enabled: Option<Option<bool>>,
    location: Option<Option<Text>>,
    contexts: Option<Option<Texts>>,
    ignore: Option<Option<u32>>,
) -> Option<BpProps>
    ensures value { result ≡ option_and_then (λ i. bp_from i (option_map (λ e. unwrap_or e false) enabled) location contexts ignore) id }
    ensures within { IfSome result (λ props. is_bp props ≡ true) }
{
    let props = BpProps {
        id: id?,
        enabled: enabled?.unwrap_or(false),
        location: location?,
        contexts: contexts?,
        ignore: ignore?,
    };
    if is_within_limits(&props) {
        Some(props)
    } else {
        None
    }
}

/// Puts how many hits pass, where it is there.
fn put_ignore(
    alloc: Global,
    map: &mut Map<String, Value>,
    ignore: Option<u32>,
) -> Result<(), AllocError>
    ensures { OnOk result (members_view map.new.entries ≡ put_if (codes "IgnoreCount") (option_map word_json ignore) (members_view map.old.entries)) }
{
    match ignore {
        Some(count) => put_member(alloc, map, "IgnoreCount", &count),
        None => Ok(()),
    }
}

/// The object of properties, whether or not they are within their limits.
#[tactic(auto, using(crate::specs::PropsLaws::bp_plain))]
pub fn bp_value(alloc: Global, props: &BpProps) -> Result<Value, AllocError>
    ensures value { IfOk result (λ value. view value ≡ bp_json props.now) }
    ensures plain { has_float (bp_json props.now) ≡ false }
{
    let mut map = Map::new(alloc);
    put_some(alloc, &mut map, "ContextIds", &props.contexts)?;
    put_member(alloc, &mut map, "Enabled", &props.enabled)?;
    put_member(alloc, &mut map, "ID", &props.id)?;
    put_ignore(alloc, &mut map, props.ignore)?;
    put_some(alloc, &mut map, "Location", &props.location)?;
    Ok(Value::Object(map))
}

impl Json for BpProps {
    ghost json = { bp_json };

    ghost json_in = { bp_in };

    ghost IsWithin = { λ props. is_bp props ≡ true };

    ghost nesting = { 2 };

    fn to_value(&self, alloc: Global) -> Result<Value, AllocError> {
        bp_value(alloc, self)
    }

    fn from_value(alloc: Global, value: &Value) -> Result<Option<Self>, AllocError> {
        let id = required_member(alloc, value, "ID")?;
        let enabled = optional_member(alloc, value, "Enabled")?;
        let location = optional_member(alloc, value, "Location")?;
        let contexts = optional_member(alloc, value, "ContextIds")?;
        let ignore = optional_member(alloc, value, "IgnoreCount")?;
        Ok(props_of(id, enabled, location, contexts, ignore))
    }

    ghost reads_back = { bp_back };

    ghost plain = { bp_plain };

    ghost shallow = { bp_shallow };
}

/// The law that what is written of properties within their limits is read as them.
pub fn bp_round_trip()
    ensures { BpRoundTrip }
{}
