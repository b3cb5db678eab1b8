//! Error reports.
ghost use Rattle.json_values.specs.Reports.{report_json, report_in, IsReport};
ghost use Rattle.json_values.specs.ReplyLaws.{report_back, report_plain, report_shallow};

use crate::canonical::Json;
use crate::fields::default_member;
use crate::members::required_member;
use serde_json::{Value, json};
use std::alloc::{AllocError, Global};
use tcf_values::{ErrorReport, Text};

impl Json for ErrorReport {
    ghost json = { report_json };

    ghost json_in = { report_in };

    ghost IsWithin = { IsReport };

    ghost nesting = { 1 };

    fn to_value(&self, alloc: Global) -> Result<Value, AllocError> {
        let code = self.code.to_value(alloc)?;
        json!(in alloc; {"Code": code, "Format": self.format.as_str()})
    }

    fn from_value(alloc: Global, value: &Value) -> Result<Option<Self>, AllocError> {
        let Some(code) = required_member(alloc, value, "Code")? else {
            return Ok(None);
        };
        let Some(format) = default_member(alloc, value, "Format", Text::from_str(alloc, "")?)?
        else {
            return Ok(None);
        };
        Ok(Some(ErrorReport { code, format }))
    }

    ghost reads_back = { λ report _. report_back report };

    ghost plain = { report_plain };

    ghost shallow = { report_shallow };
}
