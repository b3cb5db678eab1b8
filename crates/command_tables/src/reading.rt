//! What the data of a command is read as.
ghost use Rattle.std.specs.Prelude.{◌≡◌, ◌≢◌, [], true, None, Ok, IfOk, OnOk, OnErr, IsOk};
ghost use Rattle.service_names.specs.Commands.{name_in};
ghost use Rattle.command_tables.specs.Reading.{IsReading, bad_of, is_unended, reading_of};

use crate::rows::read_arguments;
use json_args::{ArgFault, split};
use service_names::command_named;
use std::alloc::{AllocError, Global};
use tcf_values::Command;

/// What the data of a command is read as.
#[derive(Debug, Drop)]
pub enum Reading {
    /// A command of the tables, whose arguments are read.
    Known(Command),
    /// The tables have no such service, or the service no such command.
    Unknown,
    /// A command of the tables, with the first argument that can't be read, counted from 0, and the code of the
    /// refusal: 2 where it is no JSON, 8 where it is no base64, and else 3.
    Bad { index: usize, code: u8 },
}

/// The reading of a fault; want of memory is none.
fn bad(fault: ArgFault) -> Result<Reading, AllocError>
    ensures ok { IfOk result (λ reading. reading ≡ bad_of fault) }
    ensures known { OnOk result (fault ≢ ArgFault.NoMemory) }
    ensures memory { OnErr result (fault ≡ ArgFault.NoMemory) }
{
    match fault {
        ArgFault::NotEnded => Ok(Reading::Bad { index: 0, code: 3 }),
        ArgFault::Missing { index } => Ok(Reading::Bad { index, code: 3 }),
        ArgFault::Syntax { index } => Ok(Reading::Bad { index, code: 2 }),
        ArgFault::Shape { index } => Ok(Reading::Bad { index, code: 3 }),
        ArgFault::Base64 { index } => Ok(Reading::Bad { index, code: 8 }),
        ArgFault::NoMemory => Err(AllocError),
    }
}

/// Reads the data of a command. `Unknown` comes exactly where the tables have no command of this service and name;
/// else `Bad` where an argument can't be read, or where the data isn't ended. `Unknown`, and what data that isn't ended
/// and no data at all are read as, come whatever the memory.
pub fn read_command(
    alloc: Global,
    service: &[u8],
    name: &[u8],
    body: &[u8],
) -> Result<Reading, AllocError>
    ensures reading { IfOk result (λ reading. reading ≡ reading_of service.now name.now body.now) }
    ensures legal { IfOk result (IsReading service.now name.now) }
    ensures unknown { name_in service.now name.now ≡ None → result ≡ Ok Reading.Unknown }
    ensures unended { is_unended body.now ≡ true → IsOk result }
    ensures no_data { body.now ≡ [] → IsOk result }
{
    let Some(command) = command_named(service, name) else {
        return Ok(Reading::Unknown);
    };
    match split(body) {
        Ok(parts) => match read_arguments(alloc, command, parts) {
            Ok(command) => Ok(Reading::Known(command)),
            Err(fault) => bad(fault),
        },
        Err(unended) => bad(unended),
    }
}
