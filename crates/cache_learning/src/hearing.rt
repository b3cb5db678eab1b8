//! The learning from a message, by its service, its name and its data.
ghost use Rattle.std.specs.Prelude.{Some, OnOk};
ghost use Rattle.command_tables.specs.Reading.{reading_of};
ghost use Rattle.cache_learning.specs.Kept.{KeepsToo, Learns};
ghost use Rattle.knowledge.specs.KnowledgeValue.{facts_of};
ghost use Rattle.cache_learning.specs.Lessons.{answer_message, event_message, final_message};
ghost use Rattle.cache_learning.specs.Within.{AreWithin};

use command_tables::{Reading, read_command};
use knowledge::{Knowledge, the_same_learn_the_same};
use reply_tables::{ReadAnswer, ReadEvent, read_answer, read_event};
use std::alloc::{AllocError, Global};
use tcf_values::Command;

/// Learns an event. One of the services whose data doesn't read makes all forgotten, and one that they don't have
/// teaches nothing. Where memory is wanting, the cache may know anything that it knew, or nothing.
pub fn hear_event(
    alloc: Global,
    cache: &mut Knowledge,
    service: &[u8],
    name: &[u8],
    body: &[u8],
) -> Result<(), AllocError>
    ensures kept { OnOk result (KeepsToo (event_message service.now name.now body.now) cache.old cache.new) }
    ensures learned { OnOk result (Learns (event_message service.now name.now body.now) cache.old cache.new) }
    ensures within { AreWithin (facts_of cache.old) → AreWithin (facts_of cache.new) }
{
    the_same_learn_the_same();
    match read_event(alloc, service, name, body)? {
        ReadEvent::Known(event) => cache.learn_event(&event)?,
        ReadEvent::Bad => cache.forget(),
        ReadEvent::Foreign => {}
    }
    Ok(())
}

/// Learns the data of an answer to a command. Data that isn't read as an answer to it teaches nothing.
pub fn hear_answer(
    alloc: Global,
    cache: &mut Knowledge,
    command: &Command,
    body: &[u8],
) -> Result<(), AllocError>
    ensures kept { OnOk result (KeepsToo (answer_message command.now body.now) cache.old cache.new) }
    ensures learned { OnOk result (Learns (answer_message command.now body.now) cache.old cache.new) }
    ensures within { AreWithin (facts_of cache.old) → AreWithin (facts_of cache.new) }
{
    the_same_learn_the_same();
    match read_answer(alloc, command, body)? {
        ReadAnswer::Known(answer) => cache.learn_answer(command, &answer),
        ReadAnswer::Bad => Ok(()),
    }
}

/// Learns the data of an answer to the command of this service, name and data. A command that the tables don't have,
/// or whose data they don't read, teaches nothing.
pub fn hear_final(
    alloc: Global,
    cache: &mut Knowledge,
    service: &[u8],
    name: &[u8],
    asked: &[u8],
    body: &[u8],
) -> Result<(), AllocError>
    ensures kept { OnOk result (KeepsToo (final_message (Some (reading_of service.now name.now asked.now)) body.now) cache.old cache.new) }
    ensures learned { OnOk result (Learns (final_message (Some (reading_of service.now name.now asked.now)) body.now) cache.old cache.new) }
    ensures within { AreWithin (facts_of cache.old) → AreWithin (facts_of cache.new) }
{
    match read_command(alloc, service, name, asked)? {
        Reading::Known(command) => hear_answer(alloc, cache, &command, body),
        Reading::Unknown | Reading::Bad { .. } => Ok(()),
    }
}
