//! Words and their texts, by example.

use bus_words::{Kind, Word, WordError, data_word, read_word, word_text};

fn label(value: u16) -> Word {
    Word {
        kind: Kind::Label,
        value,
    }
}

/// A text, whether it is a label word, and its value.
const READ: [(&[u8], bool, u16); 4] = [
    (b"L0A111", true, 0x0A11),
    (b"L0B210", true, 0x0B21),
    (b"D00001", false, 0),
    (b"D00010", false, 1),
];

#[test]
fn label_and_data_words_are_read(rt: HostRuntime) {
    for (text, is_label, value) in &READ {
        let word = if *is_label {
            label(*value)
        } else {
            data_word(*value)
        };
        assert!(rt; read_word(text) == Ok(word));
    }
}

const REFUSED: [(&[u8], WordError); 6] = [
    (b"D0000", WordError::Shape(5)),
    (b"d00001", WordError::Shape(0)),
    (b"L0a111", WordError::Shape(2)),
    (b"D000017", WordError::Shape(6)),
    (b"", WordError::Shape(0)),
    (b"D00000", WordError::Parity),
];

#[test]
fn the_first_wrong_byte_and_the_other_parity_digit_are_refused(rt: HostRuntime) {
    for (text, error) in &REFUSED {
        assert!(rt; read_word(text) == Err(*error));
    }
}

#[test]
fn a_word_is_written_in_capitals(rt: HostRuntime) {
    assert!(rt; word_text(label(0x0A11)) == *b"L0A111");
    assert!(rt; word_text(data_word(0xBEEF)) == *b"DBEEF0");
}
