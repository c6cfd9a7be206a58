//! Words that are numbers and times.
ghost use Rattle.std.specs.Prelude.{◌≡◌, ◌<◌, ◌≤◌, ◌+◌, ◌*◌, ℕ, length, IfSome, MatchOption};
ghost use Rattle.std.specs.List.{position};
ghost use Rattle.mc_cli.specs.Kinds as spec;

use crate::rows::Kind;
use mc_protocol::read_decimal;

/// The most milliseconds of a time.
const GREATEST_TIME: u64 = 86_400_000;

/// The number that the word says as a value of this kind: its own, or the milliseconds of a time.
pub fn number_in(kind: Kind, word: &[u8]) -> Option<u64>
    ensures { MatchOption result ((n : ℕ) → spec.reads kind word.now n → ⊥) (spec.reads kind word.now) }
{
    match kind {
        Kind::Number(least, greatest) => {
            let number = read_decimal(greatest, word).ok()?;
            if number >= least { Some(number) } else { None }
        }
        Kind::Time => time_in(word),
        Kind::Meeting | Kind::Mix | Kind::Notation | Kind::Name | Kind::Address => None,
        Kind::Key | Kind::Names | Kind::Path | Kind::Switch => None,
    }
}

// The milliseconds of the time that the word is, if it is one.
#[tactic(auto, unfolding(crate::specs::Kinds::time_in))]
fn time_in(word: &[u8]) -> Option<u64>
    ensures { result ≡ spec.time_in word.now }
{
    match unit_place(word) {
        Some(place) => {
            let number = read_decimal(GREATEST_TIME, &word[..place]).ok()?;
            if_time(in_unit(number, &word[place..])?)
        }
        None => seconds_in(word),
    }
}

// Where the unit begins, which has letters alone.
fn unit_place(word: &[u8]) -> Option<usize>
    ensures place { result ≡ position spec.is_small_letter word.now }
    ensures within { IfSome result (λ place. place < length word.now) }
{
    word.iter().position(|byte| is_small_letter(*byte))
}

fn is_small_letter(byte: u8) -> bool
    ensures { result ≡ spec.is_small_letter byte }
{
    byte.is_ascii_lowercase()
}

// This number of the unit with this name, in milliseconds.
fn in_unit(number: u64, name: &[u8]) -> Option<u64>
    requires { number ≤ spec.GREATEST_TIME }
    ensures { result ≡ spec.in_unit number name.now }
{
    match name {
        b"ms" => Some(number),
        b"s" => Some(number * 1000),
        b"m" => Some(number * 60_000),
        b"h" => Some(number * 3_600_000),
        _ => None,
    }
}

// The milliseconds of the seconds that the word is: a decimal, perhaps with a point and one to three places.
#[tactic(auto, unfolding(crate::specs::Kinds::seconds_in))]
fn seconds_in(word: &[u8]) -> Option<u64>
    ensures { result ≡ spec.seconds_in word.now }
{
    match point_of(word) {
        Some(point) => {
            let seconds = read_decimal(GREATEST_TIME, &word[..point]).ok()?;
            let thousandths = thousandths_in(&word[point + 1..])?;
            if_time(seconds * 1000 + thousandths)
        }
        None => {
            let seconds = read_decimal(GREATEST_TIME, word).ok()?;
            if_time(seconds * 1000)
        }
    }
}

// Where the first point stands.
fn point_of(word: &[u8]) -> Option<usize>
    ensures place { result ≡ position spec.is_point word.now }
    ensures within { IfSome result (λ point. point < length word.now) }
{
    word.iter().position(|byte| *byte == b'.')
}

// The thousandths that the places after a point are.
fn thousandths_in(places: &[u8]) -> Option<u64>
    ensures thousandths { result ≡ spec.thousandths_in places.now }
    ensures few { IfSome result (λ thousandths. thousandths ≤ 99900) }
{
    let unit = match places.len() {
        1 => 100,
        2 => 10,
        3 => 1,
        _ => return None,
    };
    Some(read_decimal(999, places).ok()? * unit)
}

// The number, if it is the milliseconds of a time.
fn if_time(milliseconds: u64) -> Option<u64>
    ensures { result ≡ spec.if_time milliseconds }
{
    if (1..=GREATEST_TIME).contains(&milliseconds) {
        Some(milliseconds)
    } else {
        None
    }
}
