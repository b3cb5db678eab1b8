//! The words of a line that asks a cache.
ghost use Rattle.std.specs.Prelude.{◌≡◌, option_copied};
ghost use Rattle.cached_lines.specs.Asked.{context_word, state_word, register_word, properties_word, status_word, bytes_word};
ghost use Rattle.cached_lines.specs.Reading.{process_of};

use tcf_values::{ContextId, context_id};

#[tactic(auto, unfolding(crate::specs::Asked::context_word))]
pub(crate) fn context_word() -> &'static [u8]
    ensures { result.now ≡ context_word }
{
    b"context"
}

#[tactic(auto, unfolding(crate::specs::Asked::state_word))]
pub(crate) fn state_word() -> &'static [u8]
    ensures { result.now ≡ state_word }
{
    b"state"
}

#[tactic(auto, unfolding(crate::specs::Asked::register_word))]
pub(crate) fn register_word() -> &'static [u8]
    ensures { result.now ≡ register_word }
{
    b"register"
}

#[tactic(auto, unfolding(crate::specs::Asked::properties_word))]
pub(crate) fn properties_word() -> &'static [u8]
    ensures { result.now ≡ properties_word }
{
    b"properties"
}

#[tactic(auto, unfolding(crate::specs::Asked::status_word))]
pub(crate) fn status_word() -> &'static [u8]
    ensures { result.now ≡ status_word }
{
    b"status"
}

#[tactic(auto, unfolding(crate::specs::Asked::bytes_word))]
pub(crate) fn bytes_word() -> &'static [u8]
    ensures { result.now ≡ bytes_word }
{
    b"bytes"
}

/// The text, if it is a process's spelling.
#[tactic(auto, unfolding(crate::specs::Reading::process_of))]
pub(crate) fn good_process(text: &[u8]) -> Option<&[u8]>
    ensures { option_copied result ≡ process_of text.now }
{
    match context_id(text)? {
        ContextId::Process(_) => Some(text),
        ContextId::Thread(_, _) => None,
    }
}
