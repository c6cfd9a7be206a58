//! What holds of the words of requests and replies, whatever reads or writes them.
ghost use Rattle.std.specs.Prelude.{ℕ};
ghost use Rattle.mc_words.specs.Words.{SpellAtMostOne, SpellsBody, SpellsRequest, SpellsReply};
ghost use Rattle.mc_protocol.specs.Decimals.{SpellsNumber};
ghost use Rattle.mc_words.specs.WordLaws.{
  PrintedWordsSpellTheRequest,
  PrintedWordsSpellTheReply,
  SpelledRequestsHaveWords,
  SpelledRepliesHaveShortBodies,
  SpellingWordsAreWhole,
  JoinedWordsFallApart,
  JoinedWordsEndNoLine,
};

/// A word spells at most one number.
pub fn word_spells_one_number()
    ensures { (greatest : ℕ) → SpellAtMostOne (SpellsNumber greatest) }
{}

/// A word spells at most one body.
pub fn word_spells_one_body()
    ensures { SpellAtMostOne SpellsBody }
{}

/// Words spell at most one request.
pub fn words_spell_one_request()
    ensures { SpellAtMostOne SpellsRequest }
{}

/// Words spell at most one reply.
pub fn words_spell_one_reply()
    ensures { SpellAtMostOne SpellsReply }
{}

/// The words that are printed of a request spell it, where it is one that words can spell.
#[tactic(auto, using(crate::proofs::PrintedWords::printed_request))]
pub fn what_is_printed_spells_the_request()
    ensures { PrintedWordsSpellTheRequest }
{}

/// The words that are printed of a reply spell it, where its body is within the limit.
#[tactic(auto, using(crate::proofs::PrintedWords::printed_reply))]
pub fn what_is_printed_spells_the_reply()
    ensures { PrintedWordsSpellTheReply }
{}

/// Where some words spell a request, the printed words do too: `has_words` is true of the request.
#[tactic(auto, using(crate::proofs::PrintedWords::spelled_request))]
pub fn spelled_requests_have_words()
    ensures { SpelledRequestsHaveWords }
{}

/// Where some words spell a reply, the printed words do too: `has_short_body` is true of the reply.
#[tactic(auto, using(crate::proofs::PrintedWords::spelled_reply))]
pub fn spelled_replies_have_short_bodies()
    ensures { SpelledRepliesHaveShortBodies }
{}

/// No word of a request is empty, or has a space, the end of a line or any other byte that isn't visible.
pub fn words_of_a_request_are_whole()
    ensures { SpellingWordsAreWhole SpellsRequest }
{}

/// No word of a reply is empty, or has a space, the end of a line or any other byte that isn't visible.
pub fn words_of_a_reply_are_whole()
    ensures { SpellingWordsAreWhole SpellsReply }
{}

/// Whole words with one space between them are the words of their line again.
#[tactic(auto, using(crate::proofs::WholeWords::falls_apart))]
pub fn joined_words_fall_apart()
    ensures { JoinedWordsFallApart }
{}

/// No end of a line stands within whole words with one space between them.
#[tactic(auto, using(crate::proofs::WholeWords::ends_no_line))]
pub fn joined_words_end_no_line()
    ensures { JoinedWordsEndNoLine }
{}
