//! Messages and wordstrings, by example.
use bus_strings::{
    Marks, Message, Transmission, Wordstring, bits, copy_message, garbled, is_by_moment, is_on,
    overlaps, pulse, pulse_count,
};
use bus_words::{Ext, Label};
use std::alloc::{AllocError, Global};
use std::process::Abort;
use std::test::Fail;

/// A message whose wordstrings have so many data words, all 7, where there is one.
fn made(alloc: Global, data_words: &[usize]) -> Result<Option<Message>, AllocError> {
    let mut strings = Vec::new(alloc);
    for count in data_words {
        let words = vec![in alloc; 7u16; *count]?;
        match (Label::new(0x0A1), Ext::new(1)) {
            (Some(label), Some(ext)) => match Wordstring::new(label, ext, words)? {
                Some(string) => strings.push(string)?,
                None => return Ok(None),
            },
            _ => return Ok(None),
        }
    }
    Ok(Message::new(strings))
}

/// The same, where there has to be one.
fn message(alloc: Global, data_words: &[usize]) -> Result<Message, Fail> {
    Ok(made(alloc, data_words)?.ok_or("message")?)
}

/// Transmissions of one terminal: when each begins, and how many data words each of its wordstrings has.
pub(crate) fn transmissions(
    alloc: Global,
    sendings: &[(u64, &[usize])],
) -> Result<Vec<Transmission>, Fail> {
    let mut list = Vec::new(alloc);
    for (moment, data_words) in sendings {
        if *moment >= 1000 {
            return Err("moment".into());
        }
        list.push(Transmission {
            moment: *moment,
            terminal: 1,
            message: message(alloc, data_words)?,
        })?;
    }
    Ok(list)
}

/// The bit times of a message of two pulses, and where each begins and how many it lasts.
fn two_pulses(message: &Message) -> Option<(u32, (u32, u32), (u32, u32))> {
    if pulse_count(message) != 2 {
        return None;
    }
    Some((bits(message), pulse(message, 0), pulse(message, 1)))
}

/// A message is on at these of its bit times, or isn't.
fn is_on_at(rt: &impl Abort, message: &Message, rows: &[(u32, bool)]) {
    for (d, on) in rows {
        assert!(rt; is_on(message, *d) == *on, "at {d}");
    }
}

const ON: &[(u32, bool)] = &[
    (0, true),
    (39, true),
    (40, false),
    (43, false),
    (44, true),
    (103, true),
    (104, false),
];

/// How many bit times a message with such wordstrings takes, where there is one.
fn length(alloc: Global, data_words: &[usize]) -> Result<Option<u32>, AllocError> {
    match made(alloc, data_words)? {
        Some(message) => Ok(Some(bits(&message))),
        None => Ok(None),
    }
}

const LENGTHS: [(&[usize], Option<u32>); 5] = [
    (&[256; 31], Some(159_460)),
    (&[0], Some(20)),
    (&[257], None),
    (&[0; 32], None),
    (&[], None),
];

#[test]
fn the_longest_message_has_its_length_and_ranges_are_kept(rt: HostRuntime) -> Result<(), Fail> {
    for (data_words, bits) in &LENGTHS {
        assert!(rt; length(rt.alloc(), data_words)? == *bits);
    }
    Ok(())
}

/// Whether two wordstrings have the same label, extension and data words.
fn are_equal(old: &Wordstring, new: &Wordstring) -> bool {
    (old.label(), old.ext(), old.words()) == (new.label(), new.ext(), new.words())
}

/// Whether two messages of two wordstrings have the same ones.
fn are_copies(old: &Message, new: &Message) -> bool {
    match (old.strings(), new.strings()) {
        ([first, second], [third, fourth]) => are_equal(first, third) && are_equal(second, fourth),
        _ => false,
    }
}

/// A message has two pulses, is on at its bit times, and is equal to a copy of it.
#[test]
fn a_message_is_quiet_for_four_bit_times_between_two_wordstrings(
    rt: HostRuntime,
) -> Result<(), Fail> {
    let message = message(rt.alloc(), &[1, 2])?;
    assert!(rt; two_pulses(&message) == Some((104, (0, 40), (44, 60))));
    is_on_at(&rt, &message, ON);
    assert!(rt; are_copies(&message, &copy_message(rt.alloc(), &message)?));
    Ok(())
}

/// Nine transmissions. The sixth reaches over the two behind it, and the fourth begins in the last bit time of the third.
fn nine(alloc: Global) -> Result<Vec<Transmission>, Fail> {
    transmissions(
        alloc,
        &[
            (0, &[4]),
            (40, &[0]),
            (100, &[0]),
            (119, &[0]),
            (139, &[0]),
            (200, &[14]),
            (210, &[0]),
            (400, &[0]),
            (500, &[0]),
        ],
    )
}

/// How many of a list overlap an entry, itself among them.
fn overlapping(list: &[Transmission], entry: &Transmission) -> usize {
    list.iter().filter(|other| overlaps(entry, other)).count()
}

/// In a list by moment those are garbled that another overlaps, which are those that more than themselves overlap.
fn are_garbled(rt: &impl Abort, list: &[Transmission]) {
    assert!(rt; is_by_moment(list));
    let expected = [true, true, true, true, false, true, true, true, false];
    assert!(rt; Marks::new(list).eq(expected));
    for (k, entry) in list.iter().enumerate() {
        assert!(rt;
            garbled(list, k) == (1 < overlapping(list, entry)),
            "entry {k}"
        );
    }
}

/// From its end a list is not by moment.
#[test]
fn a_transmission_is_garbled_where_another_overlaps_it(rt: HostRuntime) -> Result<(), Fail> {
    let mut list = nine(rt.alloc())?;
    assert!(rt; list.len() == 9);
    are_garbled(&rt, &list);
    list.reverse();
    assert!(rt; !is_by_moment(&list));
    Ok(())
}
