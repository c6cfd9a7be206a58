//! What every text shares: names, decimals, the words of sections, verbs and classes, and the faults of sections.
use crate::memory::again;
use mc_protocol::{
    Actor, Bytes, Class, DecimalFault, Fault, Lines, NameSet, Reply, Separator, Verb, WordLines,
    has_digits_alone, index_of, is_digit, is_key, is_name, is_new, is_word, may_answer,
    read_decimal, shows_number, value_of_digits,
};
use std::alloc::Global;
use std::test::Fail;

// A word, the most bytes of a name, and whether it is one.
static NAMES: &[(&str, usize, bool)] = &[
    ("a", 1, true),
    ("ab", 1, false),
    ("", 1, false),
    ("a-9", 3, true),
    ("a_9", 3, false),
    ("A", 3, false),
];

#[test]
fn knows_names(rt: HostRuntime) -> Result<(), Fail> {
    for (word, limit, wanted) in NAMES {
        assert!(rt; is_name(*limit, word.as_bytes()) == *wanted, "{word}");
    }
    assert!(rt; is_key(b"key-1") && !is_key(b"key_1"));
    Ok(())
}

fn names(alloc: Global) -> Result<Vec<Bytes>, Fail> {
    let mut names = Vec::new(alloc);
    for name in ["a", "b"] {
        names.push(Bytes::new(Vec::from_slice(alloc, name.as_bytes())?))?;
    }
    Ok(names)
}

#[test]
fn finds_names_among_others(rt: HostRuntime) -> Result<(), Fail> {
    let names = names(rt.alloc())?;
    assert!(rt; index_of(names.as_slice(), b"b") == Some(1));
    assert!(rt; index_of(names.as_slice(), b"c").is_none());
    assert!(rt; is_new(names.as_slice(), b"c") && !is_new(names.as_slice(), b"a"));
    Ok(())
}

#[test]
fn keeps_names_in_a_set(rt: HostRuntime) -> Result<(), Fail> {
    let mut names = NameSet::new(rt.alloc());
    again(|| names.push(b"a"))?;
    assert!(rt; names.has(b"a") && !names.has(b"b"));
    Ok(())
}

// The greatest number, a word, and what is read.
static DECIMALS: &[(u64, &str, Result<u64, DecimalFault>)] = &[
    (9, "9", Ok(9)),
    (9, "10", Err(DecimalFault::TooLarge)),
    (9, "00000000000000000009", Ok(9)),
    (9, "000000000000000000009", Err(DecimalFault::TooLarge)),
    (9, "", Err(DecimalFault::NotDigits)),
    (9, "+9", Err(DecimalFault::NotDigits)),
    (u64::MAX, "18446744073709551615", Ok(u64::MAX)),
    (
        u64::MAX,
        "18446744073709551616",
        Err(DecimalFault::TooLarge),
    ),
];

#[test]
fn reads_decimals(rt: HostRuntime) -> Result<(), Fail> {
    for (greatest, word, wanted) in DECIMALS {
        assert!(rt;
            read_decimal(*greatest, word.as_bytes()) == *wanted,
            "{word}"
        );
    }
    assert!(rt; is_digit(b'9') && !is_digit(b'a') && value_of_digits(b"07") == Some(7));
    assert!(rt; has_digits_alone(b"07") && !has_digits_alone(b"7 ") && !has_digits_alone(b""));
    Ok(())
}

#[test]
fn knows_the_words_of_sections_and_verbs(rt: HostRuntime) -> Result<(), Fail> {
    for (actor, word) in [(Actor::P, "P"), (Actor::A, "A"), (Actor::B, "B")] {
        assert!(rt; actor.word() == word && Actor::from_word(word.as_bytes()) == Some(actor));
    }
    assert!(rt; Actor::from_word(b"p").is_none());
    assert!(rt; Verb::from_word(b"prepend") == Some(Verb::Prepend));
    assert!(rt; Verb::from_word(b"gat").is_none());
    Ok(())
}

// The classes in their order, with their words in scripts.
static CLASSES: &[(Class, &str)] = &[
    (Class::Stored, "stored"),
    (Class::NotStored, "notstored"),
    (Class::Exists, "exists"),
    (Class::NotFound, "notfound"),
    (Class::Hit, "hit"),
    (Class::Miss, "miss"),
    (Class::Deleted, "deleted"),
    (Class::Touched, "touched"),
    (Class::Number, "number"),
    (Class::NotNumber, "notnumber"),
];

#[test]
fn knows_the_words_of_classes(rt: HostRuntime) -> Result<(), Fail> {
    for (index, (class, word)) in CLASSES.iter().enumerate() {
        assert!(rt;
            usize::from(class.index()) == index && class.word() == *word,
            "{word}"
        );
        assert!(rt; Class::from_word(word.as_bytes()) == Some(*class), "{word}");
    }
    assert!(rt; Class::from_word(b"STORED").is_none());
    Ok(())
}

// The faults with their numbers and names.
static FAULTS: &[(Fault, u8, &str)] = &[
    (Fault::WriteFailed, 1, "WriteFailed"),
    (Fault::ReadFailed, 2, "ReadFailed"),
    (Fault::Ended, 3, "Ended"),
    (Fault::BadReply, 4, "BadReply"),
    (Fault::ErrorLine, 5, "ErrorLine"),
    (Fault::TooMuch, 6, "TooMuch"),
    (Fault::Closed, 7, "Closed"),
    (Fault::Memory, 8, "Memory"),
];

#[test]
fn knows_faults(rt: HostRuntime) -> Result<(), Fail> {
    for (fault, number, name) in FAULTS {
        assert!(rt;
            fault.number() == *number && fault.name() == *name,
            "{name}"
        );
        assert!(rt; Fault::from_number(*number) == Some(*fault), "{name}");
    }
    assert!(rt; Fault::from_number(0).is_none() && Fault::from_number(9).is_none());
    Ok(())
}

#[test]
fn takes_lines_as_words(rt: HostRuntime) -> Result<(), Fail> {
    let mut lines = WordLines::new(b"# none\n\n a  b\nend", Separator::Space);
    let Some(line) = lines.next(rt.alloc())? else {
        return Err("no line".into());
    };
    assert!(rt; line.number() == 3 && line.words().len() == 2 && line.others().len() == 1);
    assert!(rt; line.begins_with(b"a") && !line.is_only(b"a"));
    let Some(line) = lines.next(rt.alloc())? else {
        return Err("no second line".into());
    };
    assert!(rt; line.is_only(b"end") && lines.number() == 4);
    assert!(rt; lines.next(rt.alloc())?.is_none());
    Ok(())
}

#[test]
fn knows_what_a_verb_may_be_answered(rt: HostRuntime) -> Result<(), Fail> {
    assert!(rt; may_answer(Verb::Incr, &Reply::Number(6)) && !may_answer(Verb::Set, &Reply::Miss));
    assert!(rt; shows_number(Verb::Gets) && !shows_number(Verb::Get));
    assert!(rt; is_word(b"a", b"a") && !is_word(b"a", b"b"));
    assert!(rt; Lines::new(b"", Separator::SpaceOrTab).separator() == Separator::SpaceOrTab);
    Ok(())
}
