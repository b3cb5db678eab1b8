//! What the definitions of these lines mean, as a law: a function that does nothing, with a contract.
ghost use Rattle.cached_lines.specs.Reading.{CachedRoundTrip};

/// The law that what is asked is read exactly where the text is its spelling, and it has a form.
pub fn cached_round_trip()
    ensures { CachedRoundTrip }
{}
