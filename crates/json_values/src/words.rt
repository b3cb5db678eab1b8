//! Numbers of 32 bits.
ghost use Rattle.std.specs.Prelude.{◌<◌, ◌^◌, refl};
ghost use Rattle.std.proofs.Common.{zero-le};
ghost use Rattle.json_values.specs.Words.{word_json, word_in};
ghost use Rattle.json_values.specs.WordLaws.{word_back};

use crate::canonical::Json;
use serde_json::Value;
use std::alloc::{AllocError, Global};

impl Json for u32 {
    ghost json = { word_json };

    ghost json_in = { word_in };

    ghost IsWithin = { λ n. n < 2 ^ 32 };

    ghost nesting = { 0 };

    fn to_value(&self, _alloc: Global) -> Result<Value, AllocError> {
        Ok(Value::from(*self))
    }

    fn from_value(_alloc: Global, value: &Value) -> Result<Option<Self>, AllocError> {
        match value.as_u64() {
            Some(number) => Ok(u32::try_from(number).ok()),
            None => Ok(None),
        }
    }

    ghost reads_back = { word_back };

    ghost plain = { λ _. refl };

    ghost shallow = { λ _. zero-le };
}
