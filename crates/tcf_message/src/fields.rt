//! The fields of a message: each is read from the front of the bytes, and what follows it is handed on.
ghost use Rattle.std.specs.Prelude.{◌≡◌, ◌+◌, ◌<◌, ◌≤◌, length, IfOk, IfErr, OnOk};
ghost use Rattle.std.specs.List.{position};
ghost use Rattle.tcf_message.specs.Message.{Gives, is_zero, field_at, most_body, token_at};

use crate::message::{BODY_LIMIT, MessageFault, TOKEN_LIMIT};

fn first_zero(bytes: &[u8]) -> Option<usize>
    ensures { result ≡ position is_zero bytes.now }
{
    bytes.iter().position(|byte| *byte == 0)
}

/// The field at the front of the bytes, which begins at `place` of the message, and what follows its zero.
#[tactic(auto, unfolding(crate::specs::Message::field_at))]
pub fn field_at(bytes: &[u8], place: usize) -> Result<(&[u8], &[u8]), MessageFault>
    ensures given { Gives (λ x. (x.0.now, x.1.now)) result (field_at place bytes.now) }
    ensures parts { IfOk result (λ x. length x.0.now + 1 + length x.1.now ≡ length bytes.now) }
{
    match first_zero(bytes) {
        Some(end) => Ok((&bytes[..end], &bytes[end + 1..])),
        None => Err(MessageFault::Unended { place }),
    }
}

/// The token at the front of the bytes, and what follows its zero.
#[tactic(auto, unfolding(crate::specs::Message::token_at))]
pub fn token_at(bytes: &[u8], place: usize) -> Result<(&[u8], &[u8]), MessageFault>
    ensures given { Gives (λ x. (x.0.now, x.1.now)) result (token_at place bytes.now) }
    ensures parts { IfOk result (λ x. length x.0.now + 1 + length x.1.now ≡ length bytes.now) }
{
    let (token, rest) = field_at(bytes, place)?;
    if token.is_empty() || token.len() > TOKEN_LIMIT {
        return Err(MessageFault::Token {
            length: token.len(),
        });
    }
    Ok((token, rest))
}

/// Refuses bytes that follow the last field, at `place` of the message.
pub fn check_end(rest: &[u8], place: usize) -> Result<(), MessageFault>
    ensures ok { OnOk result (length rest.now ≡ 0) }
    ensures fault { IfErr result (λ fault. (0 < length rest.now) × (fault ≡ MessageFault.Trailing place)) }
{
    if !rest.is_empty() {
        return Err(MessageFault::Trailing { place });
    }
    Ok(())
}

/// Refuses a body of this many bytes past the limit.
pub fn check_body(size: usize) -> Result<(), MessageFault>
    ensures ok { OnOk result (size ≤ most_body) }
    ensures fault { IfErr result (λ fault. (most_body < size) × (fault ≡ MessageFault.Body size)) }
{
    if size > BODY_LIMIT {
        return Err(MessageFault::Body { length: size });
    }
    Ok(())
}
