//! What is expected to be asked.
use mc_protocol::{Bytes, Request, Verb};
use mc_reader::{Ask, Refuse};

/// What is expected of a text.
#[derive(Clone, Copy)]
pub(crate) enum WantedAsk {
    /// A request of a key alone, with a reply to be written.
    Of(Verb, &'static [u8]),
    /// A request of a key, and perhaps a number, with no reply to be written.
    Silent(Verb, &'static [u8], u64),
    /// A request of a key and an amount.
    Count(Verb, &'static [u8], u64),
    /// A request that stores: its flags, its body, its cas unique or 0, and whether no reply is to be written.
    Store(Verb, &'static [u8], u32, &'static [u8], u64, bool),
    /// A retrieval of these keys, each followed by a space, and whether it asks for the cas uniques.
    Many(&'static [u8], bool),
    Quit,
    Refused(Refuse),
}

impl WantedAsk {
    pub(crate) fn is_ask(&self, ask: &Ask) -> bool {
        match (self, ask) {
            (WantedAsk::Many(wanted, shows), Ask::Many { with_cas, keys }) => {
                shows == with_cas && are_keys(keys.as_slice(), wanted)
            }
            (WantedAsk::Quit, Ask::Quit) => true,
            (WantedAsk::Refused(wanted), Ask::Refused(refuse)) => wanted == refuse,
            (wanted, Ask::One { request, noreply }) => wanted.is_one(request, *noreply),
            _ => false,
        }
    }

    fn is_one(&self, request: &Request, noreply: bool) -> bool {
        match self {
            WantedAsk::Of(verb, key) => is_bare(request, *verb, key, 0) && !noreply,
            WantedAsk::Silent(verb, key, number) => {
                is_bare(request, *verb, key, *number) && noreply
            }
            WantedAsk::Count(verb, key, number) => {
                is_bare(request, *verb, key, *number) && !noreply
            }
            WantedAsk::Store(verb, key, flags, body, number, silent) => {
                is_head(request, *verb, key, *number)
                    && request.flags == *flags
                    && request.body.as_slice() == *body
                    && noreply == *silent
            }
            _ => false,
        }
    }
}

fn is_head(request: &Request, verb: Verb, key: &[u8], number: u64) -> bool {
    request.verb == verb && request.key.as_slice() == key && request.number == number
}

fn is_bare(request: &Request, verb: Verb, key: &[u8], number: u64) -> bool {
    is_head(request, verb, key, number) && request.flags == 0 && request.body.as_slice().is_empty()
}

// Whether the keys, each followed by a space, are these bytes.
fn are_keys(keys: &[Bytes], wanted: &[u8]) -> bool {
    let mut rest = wanted;
    for key in keys {
        match after_key(key.as_slice(), rest) {
            Some(after) => rest = after,
            None => return false,
        }
    }
    rest.is_empty()
}

fn after_key<'w>(key: &[u8], wanted: &'w [u8]) -> Option<&'w [u8]> {
    match wanted.strip_prefix(key) {
        Some([b' ', after @ ..]) => Some(after),
        _ => None,
    }
}

/// A text that ends, and what is expected at its end.
pub(crate) type AskRow = (&'static [u8], WantedAsk);
