//! How full an inbox is.
ghost use Rattle.std.specs.Prelude.{◌≡◌};
ghost use Rattle.tcf_message.specs.Message.{IsLevel};
ghost use Rattle.channel_core.specs.Level.{level_of};

/// The level of an inbox of `n` messages, from -100 to 100: 100 less than their number, and 100 at the most.
pub fn level(n: usize) -> i8
    ensures value { result ≡ level_of n }
    ensures range { IsLevel result }
{
    if n > 200 {
        100
    } else if n < 100 {
        -((100 - n) as i8)
    } else {
        (n - 100) as i8
    }
}
