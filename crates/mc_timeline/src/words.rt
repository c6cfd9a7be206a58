//! Whether some text spells a request.
ghost use Rattle.std.specs.Prelude.{◌≡◌};
ghost use Rattle.mc_model.specs.History.{has_words, has_its_fields};

use mc_protocol::{Fields, REPLY_BODY_LIMIT, Request, is_key};

/// Whether some text spells the request: its key and body keep their limits, and a field that its verb lacks is 0 or
/// empty.
pub(crate) fn has_words(request: &Request) -> bool
    ensures { result ≡ has_words request.now }
{
    is_key(request.key.as_slice())
        && request.body.as_slice().len() <= REPLY_BODY_LIMIT
        && has_its_fields(request)
}

// Whether each field that the verb lacks is 0 or empty.
fn has_its_fields(request: &Request) -> bool
    ensures { result ≡ has_its_fields request.now }
{
    let Request {
        verb,
        flags,
        body,
        number,
        ..
    } = request;
    let is_empty = body.as_slice().is_empty();
    match verb.fields() {
        Fields::KeyAlone | Fields::Expiry => *flags == 0 && is_empty && *number == 0,
        Fields::Item => *number == 0,
        Fields::Swap => true,
        Fields::Amount => *flags == 0 && is_empty,
    }
}
