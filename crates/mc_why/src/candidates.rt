//! The replies that may be explained where a request is its section's last. Which of them are is to be judged.

use crate::reachable::reachable;
use crate::ways::ways;
use mc_model::{Cache, History, Sent};
use mc_protocol::{Actor, Bytes, Class, OutOfMemory, Reply, Request, Verb, legal};
use std::alloc::Global;

/// The most candidates that are worth judging.
const MOST: usize = 64;

/// The replies that the section's last request may have, each once: words alone, then numbers from the smallest, or hits. `before` is
/// the history before that reply. A hit of a `gets` that has no number stands for one with a number that `before` doesn't show. `None`
/// if there may be more than [`MOST`], or if it costs too much to find out.
pub(crate) fn candidates(
    alloc: Global,
    before: &History,
    up_to: &History,
    actor: Actor,
    request: &Request,
) -> Result<Option<Vec<Reply>>, OutOfMemory> {
    let mut replies = words_alone(alloc, request.verb)?;
    if carries_value(request.verb) {
        let Some(caches) = reachable(alloc, up_to, actor, &request.key)? else {
            return Ok(None);
        };
        add_values(&mut replies, caches.as_slice(), request)?;
    }
    let numbers = shown_numbers(alloc, before, request)?;
    with_numbers(alloc, replies, numbers.as_slice())
}

/// Whether some reply to the verb carries a value.
fn carries_value(verb: Verb) -> bool {
    legal(verb, Class::Hit) || legal(verb, Class::Number)
}

/// The replies to the verb that carry nothing.
fn words_alone(alloc: Global, verb: Verb) -> Result<Vec<Reply>, OutOfMemory> {
    let mut replies = Vec::new(alloc);
    'classes: for class in Class::ALL {
        if legal(verb, class) {
            add_word(&mut replies, class)?;
        }
    }
    Ok(replies)
}

/// Adds the reply of the class, if it carries nothing.
fn add_word(replies: &mut Vec<Reply>, class: Class) -> Result<(), OutOfMemory> {
    let reply = match class {
        Class::Stored => Reply::Stored,
        Class::NotStored => Reply::NotStored,
        Class::Exists => Reply::Exists,
        Class::NotFound => Reply::NotFound,
        Class::Miss => Reply::Miss,
        Class::Deleted => Reply::Deleted,
        Class::Touched => Reply::Touched,
        Class::NotNumber => Reply::NotNumber,
        Class::Hit | Class::Number => return Ok(()),
    };
    replies.push(reply)?;
    Ok(())
}

/// Adds what the request is answered where one of these is held.
fn add_values(
    replies: &mut Vec<Reply>,
    caches: &[Cache],
    request: &Request,
) -> Result<(), OutOfMemory> {
    'caches: for cache in caches {
        add_values_at(replies, cache, request)?;
    }
    Ok(())
}

fn add_values_at(
    replies: &mut Vec<Reply>,
    cache: &Cache,
    request: &Request,
) -> Result<(), OutOfMemory> {
    'ways: for way in ways(request.verb) {
        let mut left = cache.copy()?;
        let reply = way.act(&mut left, request)?;
        add_reply(replies, without_number(reply))?;
    }
    Ok(())
}

/// The reply, without the number of a hit.
fn without_number(reply: Reply) -> Reply {
    match reply {
        Reply::Hit { flags, body, .. } => Reply::Hit {
            flags,
            body,
            cas: None,
        },
        other => other,
    }
}

/// Adds the reply if it isn't there: before a greater number, or at the end.
fn add_reply(replies: &mut Vec<Reply>, reply: Reply) -> Result<(), OutOfMemory> {
    if replies.contains(&reply) {
        return Ok(());
    }
    match replies.iter().position(|other| is_greater(other, &reply)) {
        Some(place) => replies.insert(place, reply)?,
        None => replies.push(reply)?,
    }
    Ok(())
}

fn is_greater(one: &Reply, other: &Reply) -> bool {
    match (one, other) {
        (Reply::Number(one), Reply::Number(other)) => one > other,
        _ => false,
    }
}

/// The numbers that a `gets` may show once more, each once; none for another verb.
fn shown_numbers(
    alloc: Global,
    before: &History,
    request: &Request,
) -> Result<Vec<u64>, OutOfMemory> {
    let mut numbers = Vec::new(alloc);
    if request.verb == Verb::Gets {
        add_numbers(&mut numbers, before.sent(Actor::P), &request.key)?;
        add_numbers(&mut numbers, before.sent(Actor::A), &request.key)?;
        add_numbers(&mut numbers, before.sent(Actor::B), &request.key)?;
    }
    Ok(numbers)
}

/// Adds the numbers that the section was shown of the key.
fn add_numbers(numbers: &mut Vec<u64>, section: &[Sent], key: &Bytes) -> Result<(), OutOfMemory> {
    'requests: for sent in section {
        match shown_number(sent) {
            Some(number) if sent.request.key == *key && !numbers.contains(&number) => {
                numbers.push(number)?;
            }
            _ => {}
        }
    }
    Ok(())
}

/// The number that the reply shows.
fn shown_number(sent: &Sent) -> Option<u64> {
    match &sent.reply {
        Some(Reply::Hit { cas, .. }) => *cas,
        _ => None,
    }
}

/// The replies, and before each hit the same with each of the numbers.
fn with_numbers(
    alloc: Global,
    replies: Vec<Reply>,
    numbers: &[u64],
) -> Result<Option<Vec<Reply>>, OutOfMemory> {
    let forms = numbers.len().saturating_add(1);
    if replies.len().saturating_mul(forms) > MOST {
        return Ok(None);
    }
    let mut numbered = Vec::new(alloc);
    'replies: for reply in replies {
        add_numbered(&mut numbered, &reply, numbers)?;
        numbered.push(reply)?;
    }
    Ok(Some(numbered))
}

/// Adds the hit with each of the numbers.
fn add_numbered(
    replies: &mut Vec<Reply>,
    reply: &Reply,
    numbers: &[u64],
) -> Result<(), OutOfMemory> {
    let Reply::Hit { flags, body, .. } = reply else {
        return Ok(());
    };
    'numbers: for number in numbers {
        let body = body.copy(*replies.allocator())?;
        replies.push(Reply::Hit {
            flags: *flags,
            body,
            cas: Some(*number),
        })?;
    }
    Ok(())
}
