//! The races' names, and the scripts of one.

use mc_suite::{list_text, scripts_text, unknown_race};

// As examples/races has them.
const ADD_OVER_SET: &str =
    "# add-over-set: an add is stored over an item that a set stored meanwhile
script 1
keys k
budget P 1 20
budget A 1 20
budget B 2 40
P
A
add k 0 =a
B
set k 0 =b
get k
end

# add-over-set: an add is stored over an item that a set stored meanwhile
script 1
keys k
budget P 1 20
budget A 4 60
budget B 4 60
P
A
add k 0 =a
delete k
add k 0 =c
delete k
B
set k 0 =b
get k
set k 0 =d
get k
end
";

#[test]
fn names_that_no_race_has(rt: HostRuntime) {
    assert_eq!(rt; unknown_race("lost-increment"), None);
    assert_eq!(rt; unknown_race("torn-gets,add-twice"), None);
    assert_eq!(rt; unknown_race("torn-gets,add-thrice,x"), Some("add-thrice"));
    assert_eq!(rt; unknown_race("torn-gets,"), Some(""));
    assert_eq!(rt; unknown_race("Torn-gets"), Some("Torn-gets"));
}

#[test]
fn list_has_each_race_in_three_lines(rt: HostRuntime) {
    let text = list_text(rt.alloc()).unwrap_or(String::new(rt.alloc()));
    let text = text.as_str();
    assert!(rt;
        text.starts_with(
            "add-over-set\n  an add is stored over an item that a set stored meanwhile\n  set add delete get\n"
        )
    );
    assert!(rt;
        text.contains(
            "\nlost-increment\n  two increments at once, and one of them is lost\n  set incr\n"
        )
    );
    assert_eq!(rt; text.lines().count(), 63);
}

#[test]
fn scripts_of_a_race_follow_one_another(rt: HostRuntime) {
    let text = scripts_text(rt.alloc(), "add-over-set").unwrap_or(None);
    assert!(rt; text.is_some_and(|text| text.as_str() == ADD_OVER_SET));
    let none = scripts_text(rt.alloc(), "add-over").unwrap_or(None);
    assert!(rt; none.is_none());
}
