//! A wordstring: a label word, and the data words behind it.
ghost use Rattle.std.specs.Prelude.{◌≡◌, ◌+◌, ◌<◌, ◌≤◌, ◌^◌, ◌↔◌, IsSome, IsNone, IfSome, IfOk, IfErr, IsErr, vec_len, length, take};
ghost use Rattle.std.specs.List.{AllByRecursion};
ghost use Rattle.bus_strings.specs.Limits.{most_words};
ghost use Rattle.bus_strings.specs.inside.Kept.{kept_string, most_middle, most_short, IsKept};
ghost use Rattle.bus_strings.specs.Messages.{IsWordstring, word_count};

use crate::limits::MOST_WORDS;
use bus_words::{Ext, Label};
use std::alloc::{AllocError, AllocFailed, Global};
use std::marker::Model;
use std::rc::Rc;

/// As many data words as a wordstring keeps in itself, in no memory of their own.
pub const SHORT: usize = 9;

/// As many as one keeps in a block of one size.
const MIDDLE: usize = 40;

/// One label word, and 0 to 256 data words behind it. How many there may be is this project's profile.
#[derive(Debug, Drop)]
pub struct Wordstring {
    kept: Kept,
}

/// Where the data words are. Lists of short messages are what takes most memory, so each case has at most 24 bytes: its own label and
/// extension, which then take no room beside the words, and no more than two words of the machine. Words in memory are shared by all
/// copies.
#[derive(Debug, Drop)]
enum Kept {
    // The first so many of these.
    Short {
        label: Label,
        ext: Ext,
        count: u8,
        words: [u16; SHORT],
    },
    // The first so many of these.
    Middle {
        label: Label,
        ext: Ext,
        count: u8,
        words: Rc<[u16; MIDDLE]>,
    },
    Long {
        label: Label,
        ext: Ext,
        words: Rc<Vec<u16>>,
    },
}

impl Model for Wordstring {
    ghost use Rattle.bus_strings.specs.Messages as messages;

    ghost Value = { messages.Wordstring };

    ghost use Rattle.bus_strings.specs.inside.Kept.{kept_string, IsKept};

    ghost view = { λ s. kept_string s.kept };

    ghost invariant = { λ s. IsKept s.kept };
}

/// Each is a number of sixteen bits. Nothing is left of it in the built program.
fn are_words(words: &[u16])
    ensures { AllByRecursion (λ word. word < 2 ^ 16) words.now }
{
    for word in words {
        let _word = *word;
    }
}

/// At most [`SHORT`] words, in front of an array.
fn in_front(words: &[u16]) -> [u16; SHORT]
    requires { length words.now ≤ most_short }
    ensures { take (length words.now) result ≡ words.now }
{
    let mut front = [0; SHORT];
    front[..words.len()].copy_from_slice(words);
    front
}

/// At most [`MIDDLE`] data words, as a wordstring keeps them: one block of memory for them all.
fn middle(alloc: Global, label: Label, ext: Ext, words: &[u16]) -> Result<Kept, AllocError>
    requires { length words.now ≤ most_middle }
    ensures value { IfOk result (λ kept. kept_string kept ≡ record { label = label; ext = ext; words = words.now }) }
    ensures kept { IfOk result IsKept }
{
    // The types of both keep their ranges, which are known from here on.
    let _ranges = (label.value(), ext.value());
    are_words(words);
    let mut room = [0; MIDDLE];
    room[..words.len()].copy_from_slice(words);
    Ok(Kept::Middle {
        label,
        ext,
        count: words.len() as u8,
        words: Rc::new(alloc, room)?,
    })
}

/// These data words, as a wordstring keeps them that has many. They are given back where there is no memory for the place of the `Vec`.
fn long(
    alloc: Global,
    label: Label,
    ext: Ext,
    words: Vec<u16>,
) -> Result<Kept, AllocFailed<Vec<u16>>>
    requires { vec_len words ≤ most_words }
    ensures value { IfOk result (λ kept. kept_string kept ≡ record { label = label; ext = ext; words = words.items }) }
    ensures kept { IfOk result IsKept }
    ensures given_back { IfErr result (λ failed. failed.value ≡ words) }
{
    // The types of both keep their ranges, which are known from here on.
    let _ranges = (label.value(), ext.value());
    Ok(Kept::Long {
        label,
        ext,
        words: Rc::new(alloc, words)?,
    })
}

impl Wordstring {
    /// None where there are more than 256 data words. Up to [`SHORT`] of them are kept in the wordstring itself, which takes no memory, and
    /// up to 40 in one block of 96 bytes; that of the `Vec` is given back then. More stay in it, and its place takes one small block. Where
    /// there is no memory for a block, all the words are given back.
    pub fn new(
        label: Label,
        ext: Ext,
        words: Vec<u16>,
    ) -> Result<Option<Wordstring>, AllocFailed<Vec<u16>>>
        ensures some { IfOk result (λ made. IsSome made ↔ (vec_len words ≤ most_words)) }
        ensures none { IfOk result (λ made. IsNone made ↔ (most_words < vec_len words)) }
        ensures value { IfOk result (λ made. IfSome made (λ s. s ≡ record { label = label; ext = ext; words = words.items })) }
        ensures given_back { IfErr result (λ failed. failed.value ≡ words) }
        ensures memory { IsErr result → (SHORT < vec_len words) × (vec_len words ≤ most_words) }
    {
        if words.len() > MOST_WORDS {
            return Ok(None);
        }
        // The types of both keep their ranges, which are known from here on.
        let _ranges = (label.value(), ext.value());
        if words.len() <= SHORT {
            let count = words.len() as u8;
            return Ok(Some(Wordstring::short(label, ext, count, in_front(&words))));
        }
        if words.len() <= MIDDLE {
            return match middle(*words.allocator(), label, ext, &words) {
                Ok(kept) => Ok(Some(Wordstring { kept })),
                Err(_) => Err(AllocFailed { value: words }),
            };
        }
        let kept = long(*words.allocator(), label, ext, words)?;
        Ok(Some(Wordstring { kept }))
    }

    /// Of at most 256 data words. Up to [`SHORT`] of them take no memory, up to 40 one block of 96 bytes, and more what they need and the
    /// place of a `Vec`.
    pub fn of(
        alloc: Global,
        label: Label,
        ext: Ext,
        words: &[u16],
    ) -> Result<Wordstring, AllocError>
        requires { length words.now ≤ most_words }
        ensures { IfOk result (λ s. s ≡ record { label = label; ext = ext; words = words.now }) }
    {
        if words.len() <= SHORT {
            return Ok(Wordstring::short(label, ext, words.len() as u8, in_front(words)));
        }
        let kept = if words.len() <= MIDDLE {
            middle(alloc, label, ext, words)?
        } else {
            long(alloc, label, ext, Vec::from_slice(alloc, words)?)?
        };
        Ok(Wordstring { kept })
    }

    /// The first `count` of these data words, at most [`SHORT`]. It takes no memory.
    pub fn short(label: Label, ext: Ext, count: u8, words: [u16; SHORT]) -> Wordstring
        requires { count ≤ length words }
        ensures { result ≡ record { label = label; ext = ext; words = take count words } }
    {
        // The types of both keep their ranges, which are known from here on.
        let _ranges = (label.value(), ext.value());
        are_words(&words);
        Wordstring {
            kept: Kept::Short {
                label,
                ext,
                count,
                words,
            },
        }
    }

    /// The label of its label word.
    pub fn label(&self) -> Label
        ensures value { result ≡ self.now.label }
        ensures ranges { IsWordstring self.now }
    {
        match &self.kept {
            Kept::Short { label, .. } => *label,
            Kept::Middle { label, .. } => *label,
            Kept::Long { label, .. } => *label,
        }
    }

    /// The extension of its label word.
    pub fn ext(&self) -> Ext
        ensures value { result ≡ self.now.ext }
        ensures ranges { IsWordstring self.now }
    {
        match &self.kept {
            Kept::Short { ext, .. } => *ext,
            Kept::Middle { ext, .. } => *ext,
            Kept::Long { ext, .. } => *ext,
        }
    }

    /// Its data words, in order.
    pub fn words(&self) -> &[u16]
        ensures value { result.now ≡ self.now.words }
        ensures ranges { IsWordstring self.now }
    {
        match &self.kept {
            Kept::Short { count, words, .. } => &words[..*count as usize],
            Kept::Middle { count, words, .. } => &words[..*count as usize],
            Kept::Long { words, .. } => words,
        }
    }

    /// How many words it has, its label word included: 1 to 257.
    pub fn word_count(&self) -> u32
        ensures value { result ≡ word_count self.now }
        ensures most { result ≤ 1 + most_words }
    {
        match &self.kept {
            Kept::Short { count, .. } => 1 + u32::from(*count),
            Kept::Middle { count, .. } => 1 + u32::from(*count),
            Kept::Long { words, .. } => 1 + words.len() as u32,
        }
    }

    /// An equal wordstring. It takes no memory: what this one has in memory serves both.
    pub(crate) fn copy(&self) -> Result<Wordstring, AllocError>
        ensures { IfOk result (λ s. s ≡ self.now) }
    {
        let kept = match &self.kept {
            Kept::Short {
                label,
                ext,
                count,
                words,
            } => Kept::Short {
                label: *label,
                ext: *ext,
                count: *count,
                words: *words,
            },
            Kept::Middle {
                label,
                ext,
                count,
                words,
            } => Kept::Middle {
                label: *label,
                ext: *ext,
                count: *count,
                words: words.clone()?,
            },
            Kept::Long { label, ext, words } => Kept::Long {
                label: *label,
                ext: *ext,
                words: words.clone()?,
            },
        };
        Ok(Wordstring { kept })
    }
}
