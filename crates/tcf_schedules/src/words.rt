//! The words of a schedule's lines.
ghost use Rattle.std.specs.Prelude.{◌≡◌, option_copied, IfSome, IsTrue};
ghost use Rattle.std.specs.Char.{is_ascii_alphanumeric, is_ascii_digit};
ghost use Rattle.std.specs.List.{list_all};
ghost use Rattle.tcf_schedules.specs.Words.{is_name, dash_word, is_low_hex, is_hex_word};
ghost use Rattle.tcf_schedules.specs.Reading.{name_of, numeral_of, hex_of, direction_of, thread_of};
ghost use Rattle.tcf_schedules.specs.Script.{wait_word};
ghost use Rattle.tcf_schedules.specs.Line.{image_word, chain_word, open_word, send_word, deliver_word, turn_word, tick_word, close_word, cut_word, cached_word, rounds_word, times_word, up_word, down_word};

use tcf_values::{ContextId, context_id};

/// The most letters and digits of a name.
const LONGEST_NAME: usize = 16;

/// The word of a line that has an image.
#[tactic(auto, unfolding(crate::specs::Line::image_word))]
pub fn image_word() -> &'static [u8]
    ensures { result.now ≡ image_word }
{
    b"image"
}

#[tactic(auto, unfolding(crate::specs::Line::chain_word))]
pub(crate) fn chain_word() -> &'static [u8]
    ensures { result.now ≡ chain_word }
{
    b"chain"
}

#[tactic(auto, unfolding(crate::specs::Line::open_word))]
pub(crate) fn open_word() -> &'static [u8]
    ensures { result.now ≡ open_word }
{
    b"open"
}

#[tactic(auto, unfolding(crate::specs::Line::send_word))]
pub(crate) fn send_word() -> &'static [u8]
    ensures { result.now ≡ send_word }
{
    b"send"
}

#[tactic(auto, unfolding(crate::specs::Line::deliver_word))]
pub(crate) fn deliver_word() -> &'static [u8]
    ensures { result.now ≡ deliver_word }
{
    b"deliver"
}

#[tactic(auto, unfolding(crate::specs::Line::turn_word))]
pub(crate) fn turn_word() -> &'static [u8]
    ensures { result.now ≡ turn_word }
{
    b"turn"
}

#[tactic(auto, unfolding(crate::specs::Line::tick_word))]
pub(crate) fn tick_word() -> &'static [u8]
    ensures { result.now ≡ tick_word }
{
    b"tick"
}

#[tactic(auto, unfolding(crate::specs::Line::close_word))]
pub(crate) fn close_word() -> &'static [u8]
    ensures { result.now ≡ close_word }
{
    b"close"
}

#[tactic(auto, unfolding(crate::specs::Line::cut_word))]
pub(crate) fn cut_word() -> &'static [u8]
    ensures { result.now ≡ cut_word }
{
    b"cut"
}

#[tactic(auto, unfolding(crate::specs::Line::cached_word))]
pub(crate) fn cached_word() -> &'static [u8]
    ensures { result.now ≡ cached_word }
{
    b"cached"
}

#[tactic(auto, unfolding(crate::specs::Line::rounds_word))]
pub(crate) fn rounds_word() -> &'static [u8]
    ensures { result.now ≡ rounds_word }
{
    b"rounds"
}

#[tactic(auto, unfolding(crate::specs::Line::times_word))]
pub(crate) fn times_word() -> &'static [u8]
    ensures { result.now ≡ times_word }
{
    b"times"
}

#[tactic(auto, unfolding(crate::specs::Script::wait_word))]
pub(crate) fn wait_word() -> &'static [u8]
    ensures { result.now ≡ wait_word }
{
    b"wait"
}

#[tactic(auto, unfolding(crate::specs::Line::up_word))]
fn up_word() -> &'static [u8]
    ensures { result.now ≡ up_word }
{
    b"up"
}

#[tactic(auto, unfolding(crate::specs::Line::down_word))]
fn down_word() -> &'static [u8]
    ensures { result.now ≡ down_word }
{
    b"down"
}

#[tactic(auto, unfolding(crate::specs::Words::dash_word))]
pub(crate) fn dash_word() -> &'static [u8]
    ensures { result.now ≡ dash_word }
{
    b"-"
}

/// Letters and digits of ASCII alone.
fn is_plain(text: &[u8]) -> bool
    ensures { result ≡ list_all is_ascii_alphanumeric text.now }
{
    text.iter().all(|b| b.is_ascii_alphanumeric())
}

#[tactic(auto, unfolding(crate::specs::Reading::name_of))]
pub(crate) fn good_name(text: &[u8]) -> Option<&[u8]>
    ensures value { option_copied result ≡ name_of text.now }
    ensures good { IfSome result (λ name. IsTrue (is_name name.now)) }
{
    if !text.is_empty() && text.len() <= LONGEST_NAME && is_plain(text) {
        Some(text)
    } else {
        None
    }
}

fn are_digits(text: &[u8]) -> bool
    ensures { result ≡ list_all is_ascii_digit text.now }
{
    text.iter().all(|b| b.is_ascii_digit())
}

/// The digits of a number, which has no leading zero and may have any size.
#[tactic(auto, unfolding(crate::specs::Reading::numeral_of))]
pub(crate) fn numeral(text: &[u8]) -> Option<&[u8]>
    ensures { option_copied result ≡ numeral_of text.now }
{
    if !text.is_empty() && are_digits(text) && (text.len() == 1 || text[0] != b'0') {
        Some(text)
    } else {
        None
    }
}

fn are_low_hex(text: &[u8]) -> bool
    ensures { result ≡ list_all is_low_hex text.now }
{
    text.iter().all(|b| matches!(*b, b'0'..=b'9' | b'a'..=b'f'))
}

/// The digits of an image's bytes.
#[tactic(auto, unfolding(crate::specs::Reading::hex_of))]
pub(crate) fn hex_digits(text: &[u8]) -> Option<&[u8]>
    ensures value { option_copied result ≡ hex_of text.now }
    ensures good { IfSome result (λ digits. IsTrue (is_hex_word digits.now)) }
{
    if text == dash_word() || (!text.is_empty() && text.len() % 2 == 0 && are_low_hex(text)) {
        Some(text)
    } else {
        None
    }
}

/// Whether the word says up; else it says down.
#[tactic(auto, unfolding(crate::specs::Reading::direction_of))]
pub(crate) fn is_up(word: &[u8]) -> Option<bool>
    ensures { result ≡ direction_of word.now }
{
    if word == up_word() {
        Some(true)
    } else if word == down_word() {
        Some(false)
    } else {
        None
    }
}

/// The thread whose spelling the text is.
#[tactic(auto, unfolding(crate::specs::Reading::thread_of))]
pub fn thread_id(text: &[u8]) -> Option<ContextId>
    ensures { result ≡ thread_of text.now }
{
    match context_id(text)? {
        ContextId::Process(_) => None,
        ContextId::Thread(process, thread) => Some(ContextId::Thread(process, thread)),
    }
}
