//! Worked rows; the expected values are read off the hexadecimal digits.
use bit_words::{get, set, set_and_get, word_and_fields};

/// A word, the first bit and the width of a field, and the number that the field has.
const READ: [(u64, u32, u32, u64); 6] = [
    (0x1234_5678_9abc_def0, 4, 8, 0xef),
    (0x1234_5678_9abc_def0, 0, 4, 0),
    (0x1234_5678_9abc_def0, 60, 4, 1),
    (0x1234_5678_9abc_def0, 32, 32, 0x1234_5678),
    (u64::MAX, 0, 64, u64::MAX),
    (1 << 63, 63, 1, 1),
];

#[test]
fn numbers_are_read(rt: HostRuntime) {
    for (word, at, width, number) in READ {
        assert!(rt; width >= 1 && width <= 64 && at <= 64 - width);
        assert_eq!(rt; get(word, at, width), number, "of {word} from {at}");
    }
    word_and_fields();
}

#[test]
fn numbers_are_set(rt: HostRuntime) {
    assert_eq!(rt; set(u64::MAX, 8, 8, 0x12), 0xffff_ffff_ffff_12ff);
    assert_eq!(rt; set(0, 63, 1, 1), 1 << 63);
    assert_eq!(rt; set(0x1234, 0, 64, 5), 5);
    assert_eq!(rt; set(0xabcd, 4, 8, 0), 0xa00d);
    set_and_get();
}
