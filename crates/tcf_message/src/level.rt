//! The level of a flow control message, from -100 to 100 in its one spelling.
ghost use Rattle.std.specs.Prelude.{◌≡◌, ◌≤◌, IfSome};
ghost use Rattle.tcf_message.specs.Message.{number_of, level_of};

/// The number from 0 to 100 that these digits spell, or none.
#[tactic(auto, unfolding(crate::specs::Message::number_of))]
fn number_of(digits: &[u8]) -> Option<u8>
    ensures value { result ≡ number_of digits.now }
    ensures bound { IfSome result (λ number. number ≤ 100) }
{
    match digits {
        [a @ b'0'..=b'9'] => Some(a - b'0'),
        [a @ b'1'..=b'9', b @ b'0'..=b'9'] => Some(10 * (a - b'0') + (b - b'0')),
        [b'1', b'0', b'0'] => Some(100),
        _ => None,
    }
}

/// The level that this text spells, or none: a number from 0 to 100, or a minus and one from 1 to 100.
#[tactic(auto, unfolding(crate::specs::Message::level_of))]
pub fn level_of(text: &[u8]) -> Option<i8>
    ensures { result ≡ level_of text.now }
{
    match text {
        [] => None,
        [b'-', digits @ ..] => match number_of(digits) {
            None | Some(0) => None,
            Some(number) => Some(-(number as i8)),
        },
        digits => Some(number_of(digits)? as i8),
    }
}
