//! Sentences with holes, by example.
use bus_outer::{MemorySink, TextBuffer};
use bus_say::say;
use std::alloc::Global;
use std::process::Abort;
use std::test::Fail;

/// A sentence says this with these numbers.
fn says(
    rt: &impl Abort,
    alloc: Global,
    sentence: &[u8],
    numbers: &[u128],
    said: &[u8],
) -> Result<(), Fail> {
    let mut sink = MemorySink::new(alloc, 1000, 1000, Vec::new(alloc))?;
    let mut text = TextBuffer::new();
    say(&mut text, &mut sink, sentence, numbers);
    assert!(rt; text.finish(&mut sink).is_ok());
    assert_eq!(rt; sink.bytes(), said);
    Ok(())
}

#[test]
fn a_sentence_has_its_numbers(rt: HostRuntime) -> Result<(), Fail> {
    let sentence = b"#1 message$1 of terminal #0, each #2 bit$2 long.\n";
    let one = b"1 message of terminal 3, each 20 bits long.\n";
    says(&rt, rt.alloc(), sentence, &[3, 1, 20], one)?;
    let none = b"0 messages of terminal 128, each 1 bit long.\n";
    says(&rt, rt.alloc(), sentence, &[128, 0, 1], none)
}

#[test]
fn a_sentence_has_its_times(rt: HostRuntime) -> Result<(), Fail> {
    let sentence = b"It takes @0, or ~0, and @1.";
    let odd =
        "It takes 1031 bit times (515.5 µs), or about 1031 bit times, and 2 bit times (1 µs).";
    says(&rt, rt.alloc(), sentence, &[1031, 2], odd.as_bytes())?;
    let one = "It takes 1 bit time (0.5 µs), or about 1 bit time, and 0 bit times (0 µs).";
    says(&rt, rt.alloc(), sentence, &[1, 0], one.as_bytes())
}
