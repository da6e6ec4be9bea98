use pef_hash::{build, hash_word, power_for};

/// Names and their hash words.
const HASH_WORDS: &[(&[u8], u32)] = &[
    (b"a", 0x0001_0061),
    (b"ab", 0x0002_00A0),
    (b"abc", 0x0003_0123),
    (b"go", 0x0002_00A1),
    (b"", 0),
];

#[test]
fn hash_words(rt: HostRuntime) {
    for row in HASH_WORDS {
        let (name, word) = *row;
        assert!(rt; name.len() < 65_536);
        assert!(rt; hash_word(name) == word, "name {name:?}");
    }
}

/// How many exports, and the power.
const POWERS: &[(u32, u32)] = &[(9, 0), (10, 1), (20, 2), (16_383, 11)];

#[test]
fn powers(rt: HostRuntime) {
    for (count, power) in POWERS {
        assert!(rt; power_for(*count) == *power, "count {count}");
    }
}

#[test]
fn builds(rt: HostRuntime) {
    let table = build(rt.alloc(), b"abcdefghij", &[1; 10]).expect(&rt, "a table");
    assert!(rt; table.power == 1);
    assert!(rt; table.slots.as_slice() == [0x0010_0000, 0x0018_0004].as_slice());
    assert!(rt; table.order.as_slice() == [2, 3, 6, 7, 0, 1, 4, 5, 8, 9].as_slice());
}
