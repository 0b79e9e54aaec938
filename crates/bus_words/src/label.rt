//! Labels and extensions.
ghost use Rattle.std.specs.Prelude.{◌≡◌, ◌/◌, ◌%◌, ◌<◌, ◌≤◌, ◌↔◌, IsSome, IsNone, IfSome};

use std::marker::Model;

/// The label of a wordstring, which says what the data words are: twelve bits. Contracts see its number.
#[derive(Clone, Copy, Debug, PartialEq, Eq)]
pub struct Label(u16);

impl Model for Label {
    ghost use Rattle.std.specs.Prelude.{ℕ, ◌<◌};

    ghost Value = { ℕ };

    ghost view = { λ label. label.0 };

    ghost inverse = { λ value. record { 0 = value } };

    ghost invariant = { λ label. label.0 < 4096 };
}

impl Label {
    /// The label of a number; None from 4096 on.
    pub fn new(value: u16) -> Option<Label>
        ensures some { IsSome result ↔ (value < 4096) }
        ensures none { IsNone result ↔ (4096 ≤ value) }
        ensures value { IfSome result (λ label. label ≡ value) }
    {
        if value < 4096 {
            Some(Label(value))
        } else {
            None
        }
    }

    /// The upper twelve bits of a label word's value.
    pub(crate) fn upper(value: u16) -> Label
        ensures { result ≡ value / 16 }
    {
        Label(value / 16)
    }

    /// The twelve bits as a number.
    pub fn value(self) -> u16
        ensures value { result ≡ self }
        ensures range { result < 4096 }
    {
        self.0
    }
}

/// The extension of a wordstring's label: four bits. Contracts see its number.
#[derive(Clone, Copy, Debug, PartialEq, Eq)]
pub struct Ext(u8);

impl Model for Ext {
    ghost use Rattle.std.specs.Prelude.{ℕ, ◌<◌};

    ghost Value = { ℕ };

    ghost view = { λ ext. ext.0 };

    ghost inverse = { λ value. record { 0 = value } };

    ghost invariant = { λ ext. ext.0 < 16 };
}

impl Ext {
    /// The extension of a number; None from 16 on.
    pub fn new(value: u8) -> Option<Ext>
        ensures some { IsSome result ↔ (value < 16) }
        ensures none { IsNone result ↔ (16 ≤ value) }
        ensures value { IfSome result (λ ext. ext ≡ value) }
    {
        if value < 16 { Some(Ext(value)) } else { None }
    }

    /// The lower four bits of a label word's value.
    pub(crate) fn lower(value: u16) -> Ext
        ensures { result ≡ value % 16 }
    {
        Ext((value % 16) as u8)
    }

    /// The four bits as a number.
    pub fn value(self) -> u8
        ensures value { result ≡ self }
        ensures range { result < 16 }
    {
        self.0
    }
}
