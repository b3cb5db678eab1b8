//! What Processes tells of a process.
ghost use Rattle.json_values.specs.Processes.{process_json, process_in};
ghost use Rattle.json_values.specs.ReplyLaws.{process_back, process_plain, process_shallow};

use crate::canonical::Json;
use crate::fields::default_member;
use crate::members::required_member;
use serde_json::{Value, json};
use std::alloc::{AllocError, Global};
use tcf_values::{ProcessData, Text};

impl Json for ProcessData {
    ghost json = { process_json };

    ghost json_in = { process_in };

    ghost IsWithin = { λ _. Unit {0} };

    ghost nesting = { 1 };

    fn to_value(&self, alloc: Global) -> Result<Value, AllocError> {
        json!(in alloc; {
            "Attached": self.attached,
            "CanTerminate": self.can_terminate,
            "ID": self.id.as_str(),
            "Name": self.name.as_str()
        })
    }

    fn from_value(alloc: Global, value: &Value) -> Result<Option<Self>, AllocError> {
        let Some(id) = required_member(alloc, value, "ID")? else {
            return Ok(None);
        };
        let Some(name) = default_member(alloc, value, "Name", Text::from_str(alloc, "")?)? else {
            return Ok(None);
        };
        let Some(attached) = default_member(alloc, value, "Attached", false)? else {
            return Ok(None);
        };
        let Some(can_terminate) = default_member(alloc, value, "CanTerminate", false)? else {
            return Ok(None);
        };
        Ok(Some(ProcessData {
            id,
            name,
            attached,
            can_terminate,
        }))
    }

    ghost reads_back = { λ process _. process_back process };

    ghost plain = { process_plain };

    ghost shallow = { process_shallow };
}
