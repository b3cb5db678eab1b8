//! What holds of every stream, however it is cut into pieces.
ghost use Rattle.stream_escape.specs.Laws.{OneReading, OneFault, NotBoth, EachGoesOn, AnyPieces, AnyCuts, FrontOfFrame, IsFeeding, NeverWants, ReadsAreFed, ArePiecesOne, BeginsBetween, PartsBringNothing, LastPartsBringMessages, EscapesBringNothing, LastBytesBringTheEnd};

/// A list of bytes has one reading at most.
pub fn one_reading()
    ensures { OneReading }
{}

/// A list of bytes has one fault at most, at one place and behind the same items, and only if it has no reading.
pub fn one_fault()
    ensures one { OneFault }
    ensures unread { NotBoth }
{}

/// Any bytes behind a list that is read are read or refused.
pub fn each_goes_on()
    ensures { EachGoesOn }
{}

/// Fed to a new `Unescape` in any pieces, a stream gives the items and the fault that it has as a whole. So unless
/// memory was wanting, the same comes of it however it is cut.
pub fn any_pieces()
    ensures whole { AnyPieces }
    ensures cuts { AnyCuts }
{}

/// No message ends within the bytes of one whole message, before the last of them.
pub fn front_of_frame()
    ensures { FrontOfFrame }
{}

/// What `fed` says of a piece is one call of `feed`, in which memory isn't wanting. What can be read is what it gives.
pub fn a_piece_is_fed()
    ensures feeding { IsFeeding }
    ensures memory { NeverWants }
    ensures reads { ReadsAreFed }
{}

/// Two pieces that are fed one after the other give what they give as one.
pub fn pieces_are_one()
    ensures { ArePiecesOne }
{}

/// A frame comes in any parts: one that ends short of the frame's end brings nothing, and the one that ends it brings
/// its message alone, and the reader stands between messages again. So does the end of the stream, behind which the
/// reader is at its end.
pub fn frames_are_read()
    ensures between { BeginsBetween }
    ensures part { PartsBringNothing }
    ensures whole { LastPartsBringMessages }
    ensures escape { EscapesBringNothing }
    ensures end { LastBytesBringTheEnd }
{}
