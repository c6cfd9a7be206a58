//! Names that keys may be put under.

use mc_settings::Namespace;

// 38 bytes.
const LONGEST: &str = "a-name-of-38-bytes-is-the-longest-one-";

#[test]
fn names_have_1_to_38_bytes(rt: HostRuntime) {
    for name in ["a", "z", "0", "9", "-", "ci7", LONGEST] {
        let found = Namespace::new(name.as_bytes());
        assert_eq!(rt;
            found.map(|found| found.as_slice()),
            Some(name.as_bytes()),
            "{name}"
        );
    }
    assert_eq!(rt; LONGEST.len(), 38);
    for name in [
        "",
        "A",
        "a b",
        "a.b",
        "a_b",
        "a\n",
        "é",
        "a-name-of-39-bytes-is-longer-than-any-is",
    ] {
        assert!(rt; Namespace::new(name.as_bytes()).is_none(), "{name}");
    }
}
