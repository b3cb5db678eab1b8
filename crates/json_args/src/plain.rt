//! The values that most arguments are, read without the room that the reader of JSON clears for each: whole numbers
//! in digits alone, and strings of printable ASCII characters without an escape (RFC 8259, sections 6 and 7).
ghost use Rattle.std.specs.Prelude.{◌≡◌, Some, IfSome};
ghost use Rattle.std.specs.List.{list_all};
ghost use Rattle.serde_json.specs.Data.{number, string, unsigned};
ghost use Rattle.json_args.specs.Kinds.{json_of};
ghost use Rattle.json_args.specs.Unescaped.{is_unescaped};

use std::str;
use tcf_values::number_within;

/// The number below 2^32 that the part is, in digits alone.
#[tactic(auto, using(crate::proofs::Spared::number_is))]
pub fn plain_number(part: &[u8]) -> Option<u32>
    ensures { IfSome result (λ n. json_of part.now ≡ Some (number (unsigned n))) }
{
    number_within(part, 0, u32::MAX)
}

/// Whether each byte of the text stands for itself in a string.
fn is_plain(text: &[u8]) -> bool
    ensures { result ≡ list_all is_unescaped text.now }
{
    text.iter().all(|byte| matches!(*byte, b' '..=b'!' | b'#'..=b'[' | b']'..=b'~'))
}

/// The text of the string that the part is, if each of its characters stands for itself.
#[tactic(auto, using(crate::proofs::Spared::string_is))]
pub fn plain_string(part: &[u8]) -> Option<&str>
    ensures { IfSome result (λ text. json_of part.now ≡ Some (string text.now)) }
{
    let [b'"', text @ .., b'"'] = part else {
        return None;
    };
    if is_plain(text) {
        str::from_utf8(text).ok()
    } else {
        None
    }
}
