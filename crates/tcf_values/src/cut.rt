//! A text that is cut at the first byte of a kind.
ghost use Rattle.std.specs.Prelude.{◌≡◌, ◌==◌, position, option_map, IfSome, IfNone};
ghost use Rattle.tcf_values.specs.Cut.{IsCut, Lacks, cut_of};

/// Where the byte stands first.
fn place_of(byte: u8, text: &[u8]) -> Option<usize>
    ensures { result ≡ position (λ b. b == byte) text.now }
{
    text.iter().position(|b| *b == byte)
}

/// What stands before the first such byte, and what stands behind it. None comes exactly where there is no such
/// byte.
#[tactic(auto, using(crate::specs::CutLaws::lacks_without_place, crate::specs::CutLaws::cut_missing))]
pub fn cut_at(byte: u8, text: &[u8]) -> Option<(&[u8], &[u8])>
    ensures value { option_map (λ parts. (parts.0.now, parts.1.now)) result ≡ cut_of byte text.now }
    ensures cut { IfSome result (λ parts. IsCut byte text.now parts.0.now parts.1.now) }
    ensures none { IfNone result (Lacks byte text.now) }
{
    let at = place_of(byte, text)?;
    Some((&text[..at], &text[at + 1..]))
}
