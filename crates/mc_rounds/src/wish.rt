//! What a client draws of its next request.
ghost use Rattle.std.specs.Prelude.{◌≡◌, ◌<◌, IfOk, decimal};
ghost use Rattle.mc_rounds.specs.Wishes as spec;

use crate::draws::draw;
use crate::mixes::verbs_of;
use itoa::Buffer;
use mc_protocol::{Bytes, Fields, OutOfMemory, Verb};
use mc_settings::Mix;
use rand_pcg::Lcg64Xsh32;
use std::alloc::Global;

/// A request as it is drawn: its key by its index, and without the number of a cas. A field that the verb doesn't have is 0 or empty.
#[derive(Debug, Drop)]
pub(crate) struct Wish {
    pub(crate) verb: Verb,
    pub(crate) key: usize,
    pub(crate) flags: u32,
    pub(crate) body: Bytes,
    pub(crate) amount: u64,
}

/// The wish that the generator's next outputs say, where there are this many keys.
pub(crate) fn draw_wish(
    alloc: Global,
    mix: Mix,
    keys: usize,
    generator: &mut Lcg64Xsh32,
) -> Result<Wish, OutOfMemory>
    requires { 0 < keys }
    ensures wish { IfOk result (λ wish. (wish, generator.new) ≡ spec.wish_in mix keys generator.old) }
    ensures key { IfOk result (λ wish. wish.key < keys) }
{
    let verb = draw_verb(mix, generator);
    let key = draw(generator, keys);
    let mut wish = Wish {
        verb,
        key,
        flags: 0,
        body: Bytes::new(Vec::new(alloc)),
        amount: 0,
    };
    match verb.fields() {
        Fields::KeyAlone | Fields::Expiry => {}
        Fields::Item | Fields::Swap => {
            wish.flags = draw(generator, 4) as u32;
            wish.body = draw_body(alloc, generator)?;
        }
        Fields::Amount => wish.amount = draw_amount(generator),
    }
    Ok(wish)
}

fn draw_verb(mix: Mix, generator: &mut Lcg64Xsh32) -> Verb
    ensures { (result, generator.new) ≡ spec.verb_in mix generator.old }
{
    let verbs = verbs_of(mix);
    verbs[draw(generator, verbs.len())]
}

const LETTERS: [u8; 26] = *b"abcdefghijklmnopqrstuvwxyz";

fn draw_body(alloc: Global, generator: &mut Lcg64Xsh32) -> Result<Bytes, OutOfMemory>
    ensures { IfOk result (λ body. (body, generator.new) ≡ spec.body_in generator.old) }
{
    match draw(generator, 4) {
        0 => {
            let first = draw(generator, 19);
            let count = draw(generator, 9);
            let letters = &LETTERS[first..first + count];
            Ok(Bytes::new(Vec::from_slice(alloc, letters)?))
        }
        1 => decimal_of(alloc, draw(generator, 100_000_000)),
        _ => decimal_of(alloc, draw(generator, 100)),
    }
}

/// The decimal of a number.
pub(crate) fn decimal_of(alloc: Global, number: usize) -> Result<Bytes, OutOfMemory>
    ensures { IfOk result (λ body. body ≡ decimal number) }
{
    let mut text = Buffer::new();
    let digits = text.format(number).as_bytes();
    Ok(Bytes::new(Vec::from_slice(alloc, digits)?))
}

fn draw_amount(generator: &mut Lcg64Xsh32) -> u64
    ensures { (result, generator.new) ≡ spec.amount_in generator.old }
{
    let is_great = draw(generator, 16) == 0;
    let small = draw(generator, 10) as u64;
    if is_great { u64::MAX - small } else { small }
}
