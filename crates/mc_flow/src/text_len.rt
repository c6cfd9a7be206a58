//! How long the text of a request is, without the request.
ghost use Rattle.std.specs.Prelude.{◌≡◌, [], ◌+◌, ◌^◌, ◌<◌, ◌≤◌, length, decimal};
ghost use Rattle.std.specs.List.{concat};
ghost use Rattle.mc_protocol.specs.Texts as text;
ghost use Rattle.mc_code.specs.Requests.{request_with};
ghost use Rattle.mc_sound.specs.Costs as costs;

use itoa::Buffer;
use mc_protocol::Fields;
use mc_script::{Argument, Template};

/// How many bytes the text of a template's request has with this key, of at most 250 bytes, and with the longest number that
/// it may have.
pub(crate) fn text_len(key: &[u8], template: &Template) -> usize
    requires { length key.now ≤ 250 }
    ensures { result ≡ length (text.request_text (request_with template.now key.now (costs.longest_number template.now.argument))) }
{
    let verb_and_key = template.verb.word().len() + 1 + key.len();
    verb_and_key
        + match template.verb.fields() {
            Fields::KeyAlone => 2,
            Fields::Expiry => 4,
            Fields::Amount => 1 + number_len(template.argument) + 2,
            Fields::Item => item_len(template),
            Fields::Swap => item_len(template) + 1 + number_len(template.argument),
        }
}

/// How many bytes come after the key of a request that stores an item.
fn item_len(template: &Template) -> usize
    ensures len { result ≡ length (concat (text.after_key Fields.Item (request_with template.now [] 0))) }
    ensures small { result < 2 ^ 63 + 64 }
{
    let body = template.body.as_slice().len();
    1 + decimal_len(u64::from(template.flags)) + 3 + decimal_len(body as u64) + 2 + body + 2
}

/// How many digits the longest number has that a request with this argument may have.
fn number_len(argument: Argument) -> usize
    ensures len { result ≡ length (decimal (costs.longest_number argument)) }
    ensures short { result ≤ 20 }
{
    decimal_len(longest_number(argument))
}

/// Of the numbers that a call may have, one that is longest to write.
fn longest_number(argument: Argument) -> u64
    ensures { result ≡ costs.longest_number argument }
{
    match argument {
        Argument::Nothing => 0,
        Argument::Number(number) => number,
        Argument::Variable(_) => u64::MAX,
    }
}

/// How many digits a number has.
fn decimal_len(number: u64) -> usize
    ensures len { result ≡ length (decimal number) }
    ensures short { result ≤ 20 }
{
    Buffer::new().format(number).len()
}
