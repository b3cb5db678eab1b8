//! What an unbound value-add does with a command: those of the service Locator it answers itself.
ghost use Rattle.std.specs.Prelude.{◌≡◌, Some, IfOk, IsSome};
ghost use Rattle.command_tables.specs.Reading.{IsReading};
ghost use Rattle.json_values.specs.Reports.{IsReport};
ghost use Rattle.reply_tables.specs.Limits.{IsAnswerTo};
ghost use Rattle.reply_tables.specs.Rows.{row_named};
ghost use Rattle.reply_tables.specs.Written.{IsRefusal, answer_data, refusal_data};
ghost use Rattle.service_names.specs.Commands.{name_in};
ghost use Rattle.service_names.specs.declared.commands.CommandName.TheVariants as names;
ghost use Rattle.tcf_values.specs.Errors.{format_of, report_of};
ghost use Rattle.tcf_values.specs.declared.answer.Answer.{Answer as IsAnswer};
ghost use Rattle.value_node.specs.Own.{Fits, IsSendable, channel_closed, is_name, is_peer, own_by, own_reply, own_to, peers_of, redirect_done, redirect_failed, unknown_peer};

use command_tables::{Reading, read_command};
use reply_tables::{what_is_small_fits, write_answer, write_refusal};
use service_names::{CommandName, LocatorCommand, command_named};
use std::alloc::{AllocError, Global};
use tcf_outside::Octets;
use tcf_values::{Answer, Command, Duplicate, Text, Texts, report};

/// The code of a redirect to another peer than the value-add's.
const UNKNOWN_PEER: u8 = 7;

/// The code of a redirect to a peer that can't be reached.
const CHANNEL_CLOSED: u8 = 5;

/// The most bytes of a peer's name that is listed and matched.
const NAME_LIMIT: usize = 65_536;

/// What is done with a command.
#[derive(Debug, Drop)]
pub enum Own {
    /// It isn't recognised.
    Unknown,
    /// It is answered by a result with this data.
    Result(Octets),
    /// It is a redirect to the value-add's peer, and is answered later.
    Connect,
}

/// What is done with a command of this service, this name and this data.
#[tactic(auto, unfolding(crate::specs::Own::own_reply))]
pub fn own_reply(
    alloc: Global,
    peer: &Text,
    service: &[u8],
    name: &[u8],
    body: &[u8],
) -> Result<Own, AllocError>
    ensures reply { IfOk result (λ own. own ≡ own_reply peer.now service.now name.now body.now) }
    ensures sendable { IfOk result IsSendable }
{
    let Some(CommandName::Locator(command)) = command_named(service, name) else {
        return Ok(Own::Unknown);
    };
    let reading = read_command(alloc, service, name, body)?;
    own_by(alloc, peer, service, name, command, &reading)
}

/// What is done with a command of Locator as it is read.
#[tactic(auto, unfolding(crate::specs::Own::own_by))]
fn own_by(
    alloc: Global,
    peer: &Text,
    service: &[u8],
    name: &[u8],
    command: LocatorCommand,
    reading: &Reading,
) -> Result<Own, AllocError>
    requires named { name_in service.now name.now ≡ Some (names.Locator command) }
    requires reading { IsReading service.now name.now reading.now }
    ensures reply { IfOk result (λ own. own ≡ own_by peer.now (names.Locator command) reading.now) }
    ensures sendable { IfOk result IsSendable }
{
    match reading {
        Reading::Known(command) => own_to(alloc, peer, command),
        Reading::Unknown => Ok(Own::Unknown),
        Reading::Bad { code, .. } => Ok(Own::Result(refusal(
            alloc, service, name, command, *code,
        )?)),
    }
}

/// The data of a refusal of a command of Locator.
fn refusal(
    alloc: Global,
    service: &[u8],
    name: &[u8],
    command: LocatorCommand,
    code: u8,
) -> Result<Octets, AllocError>
    requires named { name_in service.now name.now ≡ Some (names.Locator command) }
    requires code { IsRefusal code }
    ensures body { IfOk result (λ body. body ≡ refusal_data (row_named (names.Locator command)) code) }
    ensures fits { IfOk result Fits }
{
    what_is_small_fits();
    let mut data = Octets::new(alloc);
    write_refusal(alloc, service, name, code, &mut data)?;
    Ok(data)
}

/// What is done with a command of Locator that is read.
#[tactic(auto, unfolding(crate::specs::Own::own_to))]
fn own_to(alloc: Global, peer: &Text, command: &Command) -> Result<Own, AllocError>
    ensures reply { IfOk result (λ own. own ≡ own_to peer.now command.now) }
    ensures sendable { IfOk result IsSendable }
{
    match command {
        Command::Sync => Ok(Own::Result(answer_data(alloc, command, &Answer::Nothing)?)),
        Command::GetPeers => Ok(Own::Result(peers_data(alloc, peer)?)),
        Command::Redirect { peer: id } if is_peer(peer, id) => Ok(Own::Connect),
        Command::Redirect { .. } => Ok(Own::Result(failed_data(alloc, command, UNKNOWN_PEER)?)),
        _ => Ok(Own::Unknown),
    }
}

fn is_name(peer: &Text) -> bool
    ensures { result ≡ is_name peer.now }
{
    peer.as_bytes().len() <= NAME_LIMIT
}

/// Whether this is the ID of the value-add's peer.
fn is_peer(peer: &Text, id: &Text) -> bool
    ensures { result ≡ is_peer peer.now id.now }
{
    is_name(peer) && id.as_bytes() == peer.as_bytes()
}

/// The data of an answer that is small.
fn answer_data(alloc: Global, command: &Command, answer: &Answer) -> Result<Octets, AllocError>
    requires { IsAnswerTo command.now answer.now }
    ensures { IfOk result (λ body. body ≡ answer_data command.now answer.now) }
{
    let mut data = Octets::new(alloc);
    write_answer(alloc, command, answer, &mut data)?;
    Ok(data)
}

/// The peers that the value-add lists.
fn peers_of(alloc: Global, peer: &Text) -> Result<Texts, AllocError>
    ensures { IfOk result (λ ids. ids ≡ peers_of peer.now) }
{
    let mut ids = Texts::new(alloc);
    if is_name(peer) {
        ids.push(peer.copy()?)?;
    }
    Ok(ids)
}

/// The data of the value-add's one peer.
#[tactic(auto, using(crate::proofs::Fitting::peers_fit))]
fn peers_data(alloc: Global, peer: &Text) -> Result<Octets, AllocError>
    ensures body { IfOk result (λ body. body ≡ answer_data Command.GetPeers (IsAnswer.Peers (peers_of peer.now))) }
    ensures fits { IfOk result Fits }
{
    let ids = peers_of(alloc, peer)?;
    answer_data(alloc, &Command::GetPeers, &Answer::Peers(ids))
}

/// The data of an answer with the error of this code.
fn failed_data(alloc: Global, command: &Command, code: u8) -> Result<Octets, AllocError>
    requires code { IsSome (format_of code) }
    requires report { IsReport (report_of code) }
    ensures body { IfOk result (λ body. body ≡ answer_data command.now (IsAnswer.Failed (report_of code))) }
    ensures fits { IfOk result Fits }
{
    what_is_small_fits();
    let answer = Answer::Failed(report(alloc, code)?);
    answer_data(alloc, command, &answer)
}

/// The data of a redirect's answer without an error.
#[tactic(auto, unfolding(crate::specs::Own::redirect_done))]
pub fn redirect_done(alloc: Global) -> Result<Octets, AllocError>
    ensures body { IfOk result (λ body. body ≡ redirect_done) }
    ensures fits { IfOk result Fits }
{
    what_is_small_fits();
    let command = Command::Redirect {
        peer: Text::from_str(alloc, "")?,
    };
    answer_data(alloc, &command, &Answer::Nothing)
}

/// The data of the answer to a redirect to a peer that can't be reached.
#[tactic(auto, unfolding(crate::specs::Own::redirect_failed))]
pub fn redirect_failed(alloc: Global) -> Result<Octets, AllocError>
    ensures body { IfOk result (λ body. body ≡ redirect_failed) }
    ensures fits { IfOk result Fits }
{
    what_is_small_fits();
    let command = Command::Redirect {
        peer: Text::from_str(alloc, "")?,
    };
    failed_data(alloc, &command, CHANNEL_CLOSED)
}
