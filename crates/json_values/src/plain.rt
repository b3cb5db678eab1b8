//! Texts, flags and whole numbers.
ghost use Rattle.std.proofs.Common.{zero-le};
ghost use Rattle.std.specs.Prelude.{refl};
ghost use Rattle.serde_json.specs.Find.{as_bool, as_str};
ghost use Rattle.json_args.specs.Kinds.{IsWhole, whole_in};
ghost use Rattle.json_values.specs.Plain.{text_json, flag_json, whole_json};
ghost use Rattle.json_values.specs.PlainLaws.{whole_back, whole_plain};

use crate::canonical::Json;
use json_args::kinds::whole_of;
use serde_json::Value;
use std::alloc::{AllocError, Global};
use tcf_values::Text;

impl Json for Text {
    ghost json = { text_json };

    ghost json_in = { as_str };

    ghost IsWithin = { λ _. Unit {0} };

    ghost nesting = { 0 };

    fn to_value(&self, alloc: Global) -> Result<Value, AllocError> {
        Value::try_from_str(alloc, self.as_str())
    }

    fn from_value(alloc: Global, value: &Value) -> Result<Option<Self>, AllocError> {
        match value.as_str() {
            Some(text) => Ok(Some(Text::from_str(alloc, text)?)),
            None => Ok(None),
        }
    }

    ghost reads_back = { λ _ _. refl };

    ghost plain = { λ _. refl };

    ghost shallow = { λ _. zero-le };
}

impl Json for bool {
    ghost json = { flag_json };

    ghost json_in = { as_bool };

    ghost IsWithin = { λ _. Unit {0} };

    ghost nesting = { 0 };

    fn to_value(&self, _alloc: Global) -> Result<Value, AllocError> {
        Ok(Value::Bool(*self))
    }

    fn from_value(_alloc: Global, value: &Value) -> Result<Option<Self>, AllocError> {
        Ok(value.as_bool())
    }

    ghost reads_back = { λ _ _. refl };

    ghost plain = { λ _. refl };

    ghost shallow = { λ _. zero-le };
}

// The whole numbers of JSON here are those from -2^63 to 2^64 - 1.
impl Json for i128 {
    ghost json = { whole_json };

    ghost json_in = { whole_in };

    ghost IsWithin = { IsWhole };

    ghost nesting = { 0 };

    fn to_value(&self, _alloc: Global) -> Result<Value, AllocError> {
        match u64::try_from(*self) {
            Ok(number) => Ok(Value::from(number)),
            Err(_) => match i64::try_from(*self) {
                Ok(number) => Ok(Value::from(number)),
                Err(_) => unreachable!(),
            },
        }
    }

    fn from_value(_alloc: Global, value: &Value) -> Result<Option<Self>, AllocError> {
        Ok(whole_of(value))
    }

    ghost reads_back = { λ z _. whole_back z };

    ghost plain = { whole_plain };

    ghost shallow = { λ _. zero-le };
}
