//! Error reports: the codes of this profile and the text of each (TCF protocol, error reports).
ghost use Rattle.std.specs.Prelude.{◌≡◌, IfOk, IsSome, option_copied};
ghost use Rattle.tcf_values.specs.Errors.{format_of, low_format_of, high_format_of, report_of};

use crate::text::Text;
use std::alloc::{AllocError, Global};
use tcf_outside::Duplicate;

/// Why a command failed: the code, and a text for people. As a peer sends it, the code can be any whole number.
#[derive(Debug, Drop)]
pub struct ErrorReport {
    pub code: i128,
    pub format: Text,
}

impl Duplicate for ErrorReport {
    fn copy(&self) -> Result<Self, AllocError> {
        Ok(ErrorReport {
            code: self.code,
            format: self.format.copy()?,
        })
    }
}

fn low_format(code: u8) -> Option<&'static str>
    ensures { option_copied result ≡ low_format_of code }
{
    match code {
        1 => Some("other"),
        2 => Some("json-syntax"),
        3 => Some("protocol"),
        5 => Some("channel-closed"),
        7 => Some("unknown-peer"),
        8 => Some("base64"),
        10 => Some("already-stopped"),
        _ => None,
    }
}

fn high_format(code: u8) -> Option<&'static str>
    ensures { option_copied result ≡ high_format_of code }
{
    match code {
        12 => Some("already-running"),
        13 => Some("already-attached"),
        14 => Some("is-running"),
        15 => Some("bad-size"),
        16 => Some("bad-context"),
        17 => Some("bad-address"),
        20 => Some("bad-number"),
        23 => Some("unsupported"),
        _ => None,
    }
}

/// The text of a code, which is none where the profile has no such code.
pub fn format_of_code(code: u8) -> Option<&'static str>
    ensures { option_copied result ≡ format_of code }
{
    match low_format(code) {
        Some(text) => Some(text),
        None => high_format(code),
    }
}

/// The report of a code of the profile, with the text that goes with it.
pub fn report(alloc: Global, code: u8) -> Result<ErrorReport, AllocError>
    requires { IsSome (format_of code) }
    ensures { IfOk result (λ made. made ≡ report_of code) }
{
    match format_of_code(code) {
        Some(text) => Ok(ErrorReport {
            code: code.into(),
            format: Text::from_str(alloc, text)?,
        }),
        None => unreachable!(),
    }
}
