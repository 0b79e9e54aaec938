//! `answer`, with ample memory.
use crate::calls::words_of;
use crate::texts::{LONG_GAP, LONGEST_INTERVAL, ONE_EACH, TWO_SENDERS};
use bus_tool::{Status, answer};
use std::test::Fail;

/// How a call of these words over these texts ends.
fn ends(rt: &HostRuntime, words: &[&str], first: &str, second: &str) -> Result<Status, Fail> {
    let words = words_of(rt, words)?;
    let first = first.as_bytes().to_vec(rt.alloc())?;
    let second = second.as_bytes().to_vec(rt.alloc())?;
    Ok(answer(rt.alloc(), &words, first, second))
}

#[test]
fn statuses_of_texts_in_memory(rt: HostRuntime) -> Result<(), Fail> {
    let short = TWO_SENDERS.replace(rt.alloc(), "SG 300", "SG 30")?;
    let uneven = "MESSAGES 1\nMSG 1 : 0000 0001\nMSG 2 : 00FF\nMSG 1 : 0000 0001\n";
    let (check, run): (&[&str], &[&str]) = (&["check", "T"], &["run", "T", "M"]);
    assert!(rt; ends(&rt, &[], "", "")? == Status::Usage);
    assert!(rt; ends(&rt, check, TWO_SENDERS, "")? == Status::Done);
    assert!(rt; ends(&rt, check, short.as_str(), "")? == Status::TableRefused);
    assert!(rt; ends(&rt, run, LONG_GAP, ONE_EACH)? == Status::Done);
    assert!(rt; ends(&rt, run, LONG_GAP, uneven)? == Status::InputRefused);
    Ok(())
}

/// So many items of one sender without words.
fn items(rt: &HostRuntime, number: usize) -> Result<String, Fail> {
    let mut messages = String::from_str(rt.alloc(), "MESSAGES 1\n")?;
    for _ in 0..number {
        messages.push_str("MSG 1 :\n")?;
    }
    Ok(messages)
}

#[test]
fn statuses_at_the_limit_of_a_schedule(rt: HostRuntime) -> Result<(), Fail> {
    for (number, status) in [(536_871, Status::Done), (536_872, Status::TooLong)] {
        let messages = items(&rt, number)?;
        let came = ends(&rt, &["run", "T", "M"], LONGEST_INTERVAL, messages.as_str())?;
        assert!(rt; came == status);
    }
    Ok(())
}
