//! Refusals, written: the answers to commands whose arguments don't read.
ghost use Rattle.std.specs.Prelude.{◌≡◌, ◌++◌, Some, OnOk, OnErr, IsSome, IfSome};
ghost use Rattle.reply_tables.specs.Answers.{answer_of};
ghost use Rattle.reply_tables.specs.Rows.{row_named as the_row_named};
ghost use Rattle.reply_tables.specs.Written.{refusal_data, IsRefusal};
ghost use Rattle.service_names.specs.Commands.{name_in};
ghost use Rattle.tcf_values.specs.Errors.{report_of};
ghost use Rattle.tcf_values.specs.declared.answer.Answer.{Answer};

use crate::rows::{Row, row_named};
use crate::writing::put_failed;
use service_names::command_named;
use std::alloc::{AllocError, Global};
use tcf_outside::Octets;
use tcf_values::report;

/// Puts the data of a refusal of the row last. After want of memory nothing was put.
#[tactic(auto, using(crate::proofs::ReadBack::failed_back))]
fn refuse(alloc: Global, row: Row, code: u8, out: &mut Octets) -> Result<(), AllocError>
    requires { IsRefusal code }
    ensures ok { OnOk result (out.new ≡ out.old ++ refusal_data row code) }
    ensures err { OnErr result (out.new ≡ out.old) }
    ensures reads_back { OnOk result (answer_of row (refusal_data row code) ≡ Some (Answer.Failed (report_of code))) }
{
    let error = report(alloc, code)?;
    let mut data = Octets::new(alloc);
    put_failed(alloc, row, &error, &mut data)?;
    out.extend(data.as_slice())
}

/// Puts the data of a refusal of the command of these names last: the report of the code in the place of the error,
/// and `null` in that of each other part. The code is 2 for an argument that is no JSON, 8 for one that isn't base64,
/// and 3 for all else. After want of memory nothing was put.
pub fn write_refusal(
    alloc: Global,
    service: &[u8],
    name: &[u8],
    code: u8,
    out: &mut Octets,
) -> Result<(), AllocError>
    requires command { IsSome (name_in service.now name.now) }
    requires code { IsRefusal code }
    ensures ok { IfSome (name_in service.now name.now) (λ command. OnOk result (out.new ≡ out.old ++ refusal_data (the_row_named command) code)) }
    ensures err { OnErr result (out.new ≡ out.old) }
    ensures reads_back { IfSome (name_in service.now name.now)
        (λ command. OnOk result (answer_of (the_row_named command) (refusal_data (the_row_named command) code) ≡ Some (Answer.Failed (report_of code)))) }
{
    match command_named(service, name) {
        Some(command) => refuse(alloc, row_named(command), code, out),
        None => unreachable!(),
    }
}
