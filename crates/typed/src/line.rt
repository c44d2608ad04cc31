// One line of a project that a person has typed: a setting, a board or a panel, from its words.

ghost use Rattle.std.specs.Prelude.{◌≡◌, Some};
ghost use Rattle.typed.specs.Lines.{keyword_of, setting_line, record_line, line_of};
ghost use Rattle.typed.specs.Messages.{message_of};

use super::line_words::{MOST_NUMBER, Words};
use std::error::Error;
use std::fmt;

// Why a line cannot be understood.
#[derive(Clone, Copy, Debug, PartialEq, Eq)]
pub enum Reason {
    Keyword,
    Number,
    Choice,
    Extra,
    TooMany,
}

impl fmt::Display for Reason {
    ghost output = { λ why. Some (message_of why) };

    fn fmt<W: fmt::Write>(&self, f: &mut fmt::Formatter<W>) -> fmt::Result {
        match self {
            Reason::Keyword => write!(
                f,
                "the first word is not kerf, layout, effort, unit, board or panel"
            ),
            Reason::Number => write!(f, "a whole number is missing, or is too large"),
            Reason::Choice => write!(f, "the word is not one that this line can have"),
            Reason::Extra => write!(f, "there are more words than this line takes"),
            Reason::TooMany => write!(f, "there are more than 64 lines of boards, or of panels"),
        }
    }
}

impl Error for Reason {}

#[derive(Clone, Copy, Debug, PartialEq, Eq)]
pub enum Setting {
    Kerf,
    Layout,
    Effort,
    Unit,
}

// What a line names.
#[derive(Clone, Copy, Debug, PartialEq, Eq)]
pub enum Kind {
    Board,
    Panel,
}

// The fields of a record, as the numbers that the project file has: a typed word is its place in a table, of a grain one more. `flag` is finite or
// can_rotate.
#[derive(Clone, Copy, Debug, PartialEq, Eq, Default)]
pub struct Fields {
    pub id: u64,
    pub width: u64,
    pub length: u64,
    pub quantity: u64,
    pub pattern: u64,
    pub flag: u64,
}

// What a line says; a setting with its number in the project file.
#[derive(Clone, Copy, Debug, PartialEq, Eq)]
pub enum Line {
    Blank,
    Set(Setting, u64),
    Record(Kind, Fields),
}

// What a line begins with.
#[derive(Clone, Copy)]
enum Keyword {
    Setting(Setting),
    Record(Kind),
}

const KEYWORDS: [(&[u8], Keyword); 6] = [
    (b"kerf", Keyword::Setting(Setting::Kerf)),
    (b"layout", Keyword::Setting(Setting::Layout)),
    (b"effort", Keyword::Setting(Setting::Effort)),
    (b"unit", Keyword::Setting(Setting::Unit)),
    (b"board", Keyword::Record(Kind::Board)),
    (b"panel", Keyword::Record(Kind::Panel)),
];

fn keyword_of(word: &[u8]) -> Option<Keyword>
    ensures { result ≡ keyword_of word.now }
{
    let found = KEYWORDS.iter().find(|entry| word == entry.0)?;
    Some(found.1)
}

fn setting_line(setting: Setting, mut words: Words) -> Result<Line, Reason>
    ensures { result ≡ setting_line setting words.entry.rest.now }
{
    let number = words.setting(setting)?;
    words.end()?;
    Ok(Line::Set(setting, number))
}

fn record_line(kind: Kind, mut words: Words) -> Result<Line, Reason>
    ensures { result ≡ record_line kind words.entry.rest.now }
{
    let fields = Fields {
        id: words.number(u64::MAX)?,
        width: words.number(MOST_NUMBER)?,
        length: words.number(MOST_NUMBER)?,
        quantity: words.quantity()?,
        pattern: words.grain()?,
        flag: words.flag(kind),
    };
    words.end()?;
    Ok(Line::Record(kind, fields))
}

pub fn read_line(line: &[u8]) -> Result<Line, Reason>
    ensures { result ≡ line_of line.now }
{
    let mut words = Words { rest: line };
    let word = words.next_word();
    if word.is_empty() {
        return Ok(Line::Blank);
    }
    match keyword_of(word) {
        Some(Keyword::Setting(setting)) => setting_line(setting, words),
        Some(Keyword::Record(kind)) => record_line(kind, words),
        None => Err(Reason::Keyword),
    }
}
