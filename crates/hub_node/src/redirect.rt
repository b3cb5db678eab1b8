//! Redirects, which a hub answers itself.
ghost use Rattle.std.specs.Prelude.{◌≡◌, ◌≤◌, true, Some, IfOk, length};
ghost use Rattle.channel_core.specs.Wire.{is_redirect};
ghost use Rattle.command_tables.specs.Reading.{IsReading};
ghost use Rattle.reply_tables.specs.Written.{IsRefusal};
ghost use Rattle.service_names.specs.Commands.{name_in};
ghost use Rattle.service_names.specs.declared.commands.CommandName.TheVariants as names;
ghost use Rattle.service_names.specs.declared.commands.LocatorCommand.TheVariants as locator;
ghost use Rattle.tcf_message.specs.Message.{most_body};
ghost use Rattle.hub_node.specs.Redirects.{redirect_code, redirect_data, redirect_reply, unknown_peer};

use command_tables::{Reading, read_command};
use reply_tables::{write_answer, write_refusal};
use std::alloc::{AllocError, Global};
use tcf_outside::Octets;
use tcf_values::{Answer, Command, Text, report};

/// The code of a redirect to a peer that isn't known: a hub knows none.
const UNKNOWN_PEER: u8 = 7;

/// Whether a command of this service and this name is a redirect.
#[tactic(auto, unfolding(channel_core::specs::Wire::locator, channel_core::specs::Wire::redirect_name), using(crate::proofs::Redirecting::redirect_named))]
pub fn is_redirect(service: &[u8], name: &[u8]) -> bool
    ensures value { result ≡ is_redirect service.now name.now }
    ensures named { result ≡ true → name_in service.now name.now ≡ Some (names.Locator locator.Redirect) }
{
    service == b"Locator".as_slice() && name == b"redirect".as_slice()
}

/// The data of the answer to a redirect: the code of an argument that can't be read, or that of a peer that isn't known.
#[tactic(auto, unfolding(crate::specs::Redirects::redirect_reply), using(crate::proofs::Redirecting::redirect_fits))]
pub fn redirect_reply(
    alloc: Global,
    service: &[u8],
    name: &[u8],
    body: &[u8],
) -> Result<Octets, AllocError>
    requires { name_in service.now name.now ≡ Some (names.Locator locator.Redirect) }
    ensures reply { IfOk result (λ reply. reply ≡ redirect_reply service.now name.now body.now) }
    ensures fits { IfOk result (λ reply. length reply ≤ most_body) }
{
    let reading = read_command(alloc, service, name, body)?;
    reply_to(alloc, service, name, &reading)
}

fn reply_to(
    alloc: Global,
    service: &[u8],
    name: &[u8],
    reading: &Reading,
) -> Result<Octets, AllocError>
    requires named { name_in service.now name.now ≡ Some (names.Locator locator.Redirect) }
    requires reading { IsReading service.now name.now reading.now }
    ensures { IfOk result (λ reply. reply ≡ redirect_data (redirect_code reading.now)) }
{
    match reading {
        Reading::Bad { code, .. } => refusal(alloc, service, name, *code),
        Reading::Known(_) | Reading::Unknown => unknown_peer(alloc),
    }
}

/// The data of a redirect's answer with the error of an argument that can't be read.
#[tactic(auto, unfolding(crate::specs::Redirects::redirect_data))]
fn refusal(alloc: Global, service: &[u8], name: &[u8], code: u8) -> Result<Octets, AllocError>
    requires named { name_in service.now name.now ≡ Some (names.Locator locator.Redirect) }
    requires code { IsRefusal code }
    ensures { IfOk result (λ body. body ≡ redirect_data code) }
{
    let mut data = Octets::new(alloc);
    write_refusal(alloc, service, name, code, &mut data)?;
    Ok(data)
}

/// The data of a redirect's answer with the error of a peer that isn't known, whatever its name.
#[tactic(auto, unfolding(crate::specs::Redirects::redirect_data))]
fn unknown_peer(alloc: Global) -> Result<Octets, AllocError>
    ensures { IfOk result (λ body. body ≡ redirect_data unknown_peer) }
{
    let command = Command::Redirect {
        peer: Text::from_str(alloc, "")?,
    };
    let answer = Answer::Failed(report(alloc, UNKNOWN_PEER)?);
    let mut data = Octets::new(alloc);
    write_answer(alloc, &command, &answer, &mut data)?;
    Ok(data)
}
