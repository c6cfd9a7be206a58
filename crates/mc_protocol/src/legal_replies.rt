//! Which replies a request may have.

ghost use Rattle.std.specs.Prelude.{◌≡◌};
ghost use Rattle.mc_protocol.specs.Legal as table;

use crate::{Class, REPLY_BODY_LIMIT, Reply, Request, Verb};

/// Whether the protocol has a reply of this class to the verb (`protocol.txt`).
pub fn legal(verb: Verb, class: Class) -> bool
    ensures { result ≡ table.is_legal verb class }
{
    match verb {
        Verb::Set | Verb::Add | Verb::Replace | Verb::Append | Verb::Prepend | Verb::Cas => {
            is_storage_reply(class)
        }
        Verb::Get | Verb::Gets => matches!(class, Class::Hit | Class::Miss),
        Verb::Incr | Verb::Decr => {
            matches!(class, Class::Number | Class::NotFound | Class::NotNumber)
        }
        Verb::Delete => matches!(class, Class::Deleted | Class::NotFound),
        Verb::Touch => matches!(class, Class::Touched | Class::NotFound),
    }
}

fn is_storage_reply(class: Class) -> bool
    ensures { result ≡ table.is_storage_reply class }
{
    matches!(
        class,
        Class::Stored | Class::NotStored | Class::Exists | Class::NotFound
    )
}

/// Whether the request may have this reply.
pub fn fits(request: &Request, reply: &Reply) -> bool
    ensures { result ≡ table.is_fit request.now reply.now }
{
    may_answer(request.verb, reply)
}

/// Whether a request of this verb may have this reply: its class is legal, a hit shows a cas number exactly to `gets`,
/// and its body has at most [`REPLY_BODY_LIMIT`] bytes.
pub fn may_answer(verb: Verb, reply: &Reply) -> bool
    ensures { result ≡ table.is_fit_for verb reply.now }
{
    legal(verb, reply.class()) && suits(verb, reply)
}

// Whether what the reply carries is right for the verb.
fn suits(verb: Verb, reply: &Reply) -> bool
    ensures { result ≡ table.suits verb reply.now }
{
    match reply {
        Reply::Hit { body, cas, .. } => {
            cas.is_some() == shows_number(verb) && body.as_slice().len() <= REPLY_BODY_LIMIT
        }
        _ => true,
    }
}

/// Whether a hit for the verb shows the cas number.
pub fn shows_number(verb: Verb) -> bool
    ensures { result ≡ table.shows_number verb }
{
    matches!(verb, Verb::Gets)
}
