//! Where the reading of a table text stops, and what may stand there.
ghost use Rattle.std.specs.Prelude.{◌≡◌};

use crate::draft::may_follow;
use crate::keyword::Keyword;
use crate::mode::Mode;
use crate::stage::Stage;
use std::marker::Model;

/// Where the reading of a table text stopped: before the first line that is refused, or at the end of the text.
#[derive(Drop)]
pub struct Stop {
    stage: Stage,
    sends: usize,
    takes: usize,
    mode: Mode,
    word: Option<Keyword>,
}

impl Model for Stop {
    ghost use Rattle.bus_table.specs.Stops as stops;

    ghost Value = { stops.Stop };

    ghost view = { λ s. record { stage = s.stage; sends = s.sends; takes = s.takes; mode = s.mode; word = s.word } };
}

impl Stop {
    ghost use Rattle.bus_table.specs.Drafts as drafts;
    ghost use Rattle.bus_table.specs.Stops as stops;

    /// Behind what stood last, where the terminal that stands last has so many SEND lines and TAKE lines.
    pub(crate) fn new(
        stage: Stage,
        sends: usize,
        takes: usize,
        mode: Mode,
        word: Option<Keyword>,
    ) -> Stop
        ensures { result ≡ (record { stage = stage; sends = sends; takes = takes; mode = mode; word = word }) }
    {
        Stop {
            stage,
            sends,
            takes,
            mode,
            word,
        }
    }

    /// The same at a line of this keyword.
    pub(crate) fn at(self, word: Option<Keyword>) -> Stop
        ensures { result ≡ stops.with_word self word }
    {
        Stop { word, ..self }
    }

    /// The mode of the table; aperiodic before its line.
    pub fn mode(&self) -> Mode
        ensures { result ≡ self.now.mode }
    {
        self.mode
    }

    /// The keyword of the line that is refused, where a line of this keyword may stand there; None at the end of the text.
    pub fn keyword(&self) -> Option<Keyword>
        ensures { result ≡ stops.fitting self.now }
    {
        match self.word {
            Some(keyword) if self.may_stand(keyword) => Some(keyword),
            _ => None,
        }
    }

    /// The keyword of the line that is refused, where only the number of such lines bars it there: SEND where the sender has 31 of
    /// them, TAKE where the terminal has 64.
    pub fn spent(&self) -> Option<Keyword>
        ensures { result ≡ stops.spent self.now }
    {
        match self.word {
            Some(keyword) if self.is_spent(keyword) => Some(keyword),
            _ => None,
        }
    }

    /// Whether a line of a keyword may stand there.
    pub fn may_stand(&self, keyword: Keyword) -> bool
        ensures { result ≡ stops.may_stand self.now keyword }
    {
        may_follow(self.stage, self.sends, self.takes, keyword)
    }

    /// Whether only the number of such lines bars a line of a keyword there.
    fn is_spent(&self, keyword: Keyword) -> bool
        ensures { result ≡ stops.is_spent self.now keyword }
    {
        may_follow(self.stage, 0, 0, keyword) && !self.may_stand(keyword)
    }

    /// Whether the text may end there.
    pub fn may_end(&self) -> bool
        ensures { result ≡ drafts.may_end self.now.stage }
    {
        self.stage.may_end()
    }
}
