//! The IDs of processes, threads and registers, each with exactly one spelling (TCF services RunControl and
//! Registers, where an ID is a text of the agent's choice).
ghost use Rattle.std.specs.Prelude.{◌≡◌, IfOk, IfSome, IfNone, option_copied};
ghost use Rattle.tcf_values.specs.Ids.{ContextRoundTrip, RegisterRoundTrip, context_of, behind_of, context_in, process_of, thread_of, positive_of, register_of, register_in, register_from, index_of};
ghost use Rattle.tcf_values.specs.Spelling.{IsContext, IsRegister, context_spelling, register_spelling, SpellsContext, SpellsRegister};
ghost use Rattle.tcf_values.specs.declared.ids.ContextId.{ContextId};
ghost use Rattle.tcf_values.specs.declared.ids.RegisterId.{RegisterId};

use crate::cut::cut_at;
use crate::number::number_within;
use crate::text::Text;
use std::alloc::{AllocError, Global};
use tcf_outside::Duplicate;

/// The index of the pc, behind those of the registers x0 to x31.
pub const PC: u8 = 32;

/// A process by its number, or a thread by the number of its process and its own. Numbers begin at 1.
#[derive(Clone, Copy, Debug, PartialEq, Eq)]
pub enum ContextId {
    Process(u32),
    Thread(u32, u32),
}

/// A register of a thread. The indexes 0 to 31 are x0 to x31, and 32 is the pc.
#[derive(Clone, Copy, Debug, PartialEq, Eq)]
pub struct RegisterId {
    pub process: u32,
    pub thread: u32,
    pub index: u8,
}

impl Duplicate for ContextId {
    fn copy(&self) -> Result<Self, AllocError> {
        Ok(*self)
    }
}

impl Duplicate for RegisterId {
    fn copy(&self) -> Result<Self, AllocError> {
        Ok(*self)
    }
}

/// What follows the letter.
fn behind(letter: u8, text: &[u8]) -> Option<&[u8]>
    ensures { option_copied result ≡ behind_of letter text.now }
{
    match text {
        [first, rest @ ..] if *first == letter => Some(rest),
        _ => None,
    }
}

/// The number of a process or of a thread.
fn positive(digits: &[u8]) -> Option<u32>
    ensures { result ≡ positive_of digits.now }
{
    number_within(digits, 1, u32::MAX)
}

fn thread_id(process: &[u8], thread: &[u8]) -> Option<ContextId>
    ensures { result ≡ thread_of process.now thread.now }
{
    let process = positive(process)?;
    let thread = positive(thread)?;
    Some(ContextId::Thread(process, thread))
}

fn process_id(digits: &[u8]) -> Option<ContextId>
    ensures { result ≡ process_of digits.now }
{
    Some(ContextId::Process(positive(digits)?))
}

fn context_numbers(digits: &[u8]) -> Option<ContextId>
    ensures { result ≡ context_in digits.now }
{
    match cut_at(b'.', digits) {
        Some((process, thread)) => thread_id(process, thread),
        None => process_id(digits),
    }
}

/// Reads the ID of a process, as `P1`, or of a thread, as `P1.1`. None comes exactly where the text is no spelling
/// of an ID with numbers from 1 to 4,294,967,295. It takes no memory.
pub fn context_id(text: &[u8]) -> Option<ContextId>
    ensures value { result ≡ context_of text.now }
    ensures found { IfSome result (SpellsContext text.now) }
    ensures none { IfNone result ((id : ContextId) → SpellsContext text.now id → ⊥) }
{
    context_numbers(behind(b'P', text)?)
}

/// The index that a register's name says: of x0 to x31, and of pc.
fn register_index(name: &[u8]) -> Option<u8>
    ensures { result ≡ index_of name.now }
{
    if name == b"pc".as_slice() {
        return Some(PC);
    }
    let index = number_within(behind(b'x', name)?, 0, 31)?;
    Some(index as u8)
}

fn register_parts(process: &[u8], thread: &[u8], name: &[u8]) -> Option<RegisterId>
    ensures { result ≡ register_from process.now thread.now name.now }
{
    Some(RegisterId {
        process: positive(process)?,
        thread: positive(thread)?,
        index: register_index(name)?,
    })
}

fn register_numbers(digits: &[u8]) -> Option<RegisterId>
    ensures { result ≡ register_in digits.now }
{
    let (process, rest) = cut_at(b'.', digits)?;
    let (thread, name) = cut_at(b'.', rest)?;
    register_parts(process, thread, name)
}

/// Reads the ID of a register, as `P1.1.x0` or `P1.1.pc`. None comes exactly where the text is no spelling of an ID
/// with numbers from 1 to 4,294,967,295 and a register from x0 to x31 or pc. It takes no memory.
pub fn register_id(text: &[u8]) -> Option<RegisterId>
    ensures value { result ≡ register_of text.now }
    ensures found { IfSome result (SpellsRegister text.now) }
    ensures none { IfNone result ((id : RegisterId) → SpellsRegister text.now id → ⊥) }
{
    register_numbers(behind(b'P', text)?)
}

/// The one spelling of the ID.
pub fn context_text(alloc: Global, id: ContextId) -> Result<Text, AllocError>
    requires { IsContext id }
    ensures { IfOk result (λ text. text ≡ context_spelling id) }
{
    let spelling = match id {
        ContextId::Process(process) => format!(in alloc; "P{process}")?,
        ContextId::Thread(process, thread) => format!(in alloc; "P{process}.{thread}")?,
    };
    Ok(Text::from_string(spelling))
}

/// The one spelling of the ID.
pub fn register_text(alloc: Global, id: RegisterId) -> Result<Text, AllocError>
    requires { IsRegister id }
    ensures { IfOk result (λ text. text ≡ register_spelling id) }
{
    let RegisterId {
        process,
        thread,
        index,
    } = id;
    let spelling = if index == PC {
        format!(in alloc; "P{process}.{thread}.pc")?
    } else {
        format!(in alloc; "P{process}.{thread}.x{index}")?
    };
    Ok(Text::from_string(spelling))
}

/// The law that the ID of a process or of a thread is read exactly where the text is its spelling.
pub fn context_round_trip()
    ensures { ContextRoundTrip }
{}

/// The law that the ID of a register is read exactly where the text is its spelling.
pub fn register_round_trip()
    ensures { RegisterRoundTrip }
{}
