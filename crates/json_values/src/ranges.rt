//! Ranges of memory.
ghost use Rattle.json_values.specs.Ranges.{range_json, range_in, IsRange};
ghost use Rattle.json_values.specs.ReplyLaws.{range_back, range_plain, range_shallow};

use crate::canonical::Json;
use crate::fields::{default_member, is_object};
use serde_json::{Value, json};
use std::alloc::{AllocError, Global};
use tcf_values::Range;

impl Json for Range {
    ghost json = { range_json };

    ghost json_in = { range_in };

    ghost IsWithin = { IsRange };

    ghost nesting = { 1 };

    fn to_value(&self, alloc: Global) -> Result<Value, AllocError> {
        let addr = self.addr.to_value(alloc)?;
        let size = self.size.to_value(alloc)?;
        json!(in alloc; {"addr": addr, "size": size})
    }

    fn from_value(alloc: Global, value: &Value) -> Result<Option<Self>, AllocError> {
        if !is_object(value) {
            return Ok(None);
        }
        let Some(addr) = default_member(alloc, value, "addr", 0i128)? else {
            return Ok(None);
        };
        let Some(size) = default_member(alloc, value, "size", 0i128)? else {
            return Ok(None);
        };
        Ok(Some(Range { addr, size }))
    }

    ghost reads_back = { λ range _. range_back range };

    ghost plain = { range_plain };

    ghost shallow = { range_shallow };
}
