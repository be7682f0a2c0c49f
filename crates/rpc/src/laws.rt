ghost use Rattle.rpc.specs.Spelling.{request_spelling, reply_spelling, IsSpelledRequest};
ghost use Rattle.rpc.specs.Spelling.{IsSpelledReply, SpellsRequest, SpellsReply};
ghost use Rattle.rpc.specs.Laws.{FramesStandApart, StreamsHaveOneReading, ReadingsGoOn};
ghost use Rattle.rpc.specs.Laws.{ReadingsStayEnded};

/// No encoding of an item begins another's, and a stream has one reading: whoever reads it, in
/// whatever pieces it comes, has the same items and the same end.
pub fn one_reading()
    ensures requests_apart { FramesStandApart IsSpelledRequest request_spelling }
    ensures replies_apart { FramesStandApart IsSpelledReply reply_spelling }
    ensures requests { StreamsHaveOneReading SpellsRequest }
    ensures replies { StreamsHaveOneReading SpellsReply }
{}

/// A reading goes on where the stream does: what was read stands, and after an oversized length
/// nothing is read.
pub fn reading_goes_on()
    ensures requests { ReadingsGoOn SpellsRequest }
    ensures replies { ReadingsGoOn SpellsReply }
    ensures requests_ended { ReadingsStayEnded SpellsRequest }
    ensures replies_ended { ReadingsStayEnded SpellsReply }
{}
