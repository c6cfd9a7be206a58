//! What a cache holds after the moves of an explanation, and what it answers then.
ghost use Rattle.std.specs.Prelude.{◌≡◌, ◌≤◌, ℕ, [], IfOk, MatchOption, OnOk};
ghost use Rattle.mc_model.specs.Act.{act};
ghost use Rattle.mc_claims.specs.{ExplainsLaws.move_count, Explains.start_contents};
ghost use Rattle.mc_why.specs.Answers as answers;
ghost use Rattle.mc_why.specs.Answering.{EachIsAnswered, IsFirstUnanswered, IsNthMove};

use mc_claims::start_cache;
use mc_explain::Move;
use mc_model::{Cache, Choice, History, Sent, reply_with};
use mc_protocol::{Actor, Bytes, OutOfMemory, Reply, Request};
use std::alloc::Global;

/// What a cache that holds the start items holds after the moves, each of which lets the next request of its section act.
pub(crate) fn cache_after(
    alloc: Global,
    history: &History,
    start: &[(Bytes, u64)],
    moves: &[Move],
) -> Result<Cache, OutOfMemory>
    ensures { IfOk result (λ cache. cache ≡ answers.moved_along history.now.sections [] moves.now (start_contents start.now)) }
{
    let mut cache = start_cache(alloc, start)?;
    'moving: for (index, by) in moves.iter().enumerate() {
        make_move(&mut cache, history, &moves[..index], *by)?;
    }
    Ok(cache)
}

/// Lets the section's next request after the earlier moves act.
fn make_move(
    cache: &mut Cache,
    history: &History,
    earlier: &[Move],
    by: Move,
) -> Result<(), OutOfMemory>
    ensures { OnOk result (cache.new ≡ answers.moved (answers.next_after history.now.sections earlier.now by.actor) by cache.old) }
{
    let place = count_moves(by.actor, earlier);
    match history.sent(by.actor).get(place) {
        Some(sent) => {
            let _reply = cache.act(&sent.request, by.choice, by.number)?;
            Ok(())
        }
        None => Ok(()),
    }
}

/// How many of the moves are of the section.
pub(crate) fn count_moves(actor: Actor, moves: &[Move]) -> usize
    ensures { result ≡ move_count actor moves.now }
{
    moves.iter().filter(|by| by.actor == actor).count()
}

/// The section's move that has this many of the section's before it, with its place in the list.
pub(crate) fn nth_move(actor: Actor, count: usize, moves: &[Move]) -> Option<(usize, Move)>
    ensures { MatchOption result (move_count actor moves.now ≤ count) (λ found. IsNthMove moves.now actor count found.0 found.1) }
{
    let mut earlier = 0;
    'moves: for (place, by) in moves.iter().enumerate() {
        if by.actor == actor {
            if earlier == count {
                return Some((place, *by));
            }
            earlier += 1;
        }
    }
    None
}

/// The place of the first request that was not answered.
pub(crate) fn first_unanswered(section: &[Sent]) -> Option<usize>
    ensures { MatchOption result (EachIsAnswered section.now) (IsFirstUnanswered section.now) }
{
    section.iter().position(|sent| sent.reply.is_none())
}

/// What a cache answers to a request, whatever number a version gets that it makes.
pub(crate) fn reply_of(
    alloc: Global,
    cache: &Cache,
    request: &Request,
    choice: Choice,
) -> Result<Reply, OutOfMemory>
    ensures { IfOk result (λ reply. (number : ℕ) → reply ≡ (act cache.now request.now choice number).reply) }
{
    let decision = cache.decide(request, choice);
    reply_with(alloc, decision.answer, cache.find(request.key.as_slice()))
}
