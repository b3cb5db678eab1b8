//! Laws of the definitions: functions that do nothing, whose contracts hold of all lists of bytes.
ghost use Rattle.tcf_message.specs.Fault.{IsReadBack, IsOneSpelling, AreFaults, IsOneAnswer, IsAnswered, IsDecimalToken};

/// No two messages have one spelling.
pub fn one_spelling()
    ensures { IsOneSpelling }
{}

/// A message's spelling is read as that message, and what is read is what the bytes say.
pub fn read_back()
    ensures { IsReadBack }
{}

/// A fault is read exactly where the bytes have it: they say nothing then, and have no other fault. Bytes without
/// a fault say a message.
pub fn faults()
    ensures exact { AreFaults }
    ensures one { IsOneAnswer }
    ensures some { IsAnswered }
{}

/// A number of 64 bits, in decimal digits, is a token.
pub fn decimal_token()
    ensures { IsDecimalToken }
{}
