//! Laws of the grammars of replies and requests.
ghost use Rattle.mc_reader.specs.AskLaws as ask_law;
ghost use Rattle.mc_reader.specs.Laws as law;

/// A text spells one reply at most, or fails in one way; and no text that spells a reply or fails is a proper prefix of
/// another: where two of them begin the same bytes, they are one text with one outcome.
pub fn one_reply()
    ensures { law.OneReply }
{}

/// A reply that is spelled fits a request of the verb: its class is legal, a hit shows the cas unique exactly to `gets`, and
/// its body is within the limit.
pub fn spelled_replies_fit()
    ensures { law.SpelledRepliesFit }
{}

/// What `mc_protocol` renders for a reply that fits is read as that reply, for a key as requests have it.
pub fn written_is_spelled()
    ensures { law.WrittenIsSpelled }
{}

/// A text asks one thing at most, or is refused in one way; and no text of a request is a proper prefix of another: where two of
/// them begin the same bytes, they are one text, and ask the same. So the requests of a stream are determined.
pub fn one_ask()
    ensures { ask_law.OneAsk }
{}

/// What `mc_protocol` renders for a request is asked as that request, with a reply to be written: for a key of the protocol, and a
/// body within the limit. Fields that the verb doesn't have aren't rendered.
pub fn written_is_asked()
    ensures { ask_law.WrittenIsAsked }
{}
