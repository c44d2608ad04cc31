// The project file of a text that a person has typed, or the first of its lines that cannot be understood.
#![tactic(auto)]

ghost use Rattle.std.specs.Prelude.{◌≡◌, ◌≤◌, true, [], length, IfOk, Some};
ghost use Rattle.words.specs.Appending.{with_bytes};
ghost use Rattle.model.specs.Project.{well_formed};
ghost use Rattle.typed.specs.Lines.{line_of};
ghost use Rattle.typed.specs.Project.{empty, with_setting, pushed, added, too_many, reason_of, answer_of, record_text, records_text, contents_text, settings_text, file_text, meaning, file_of, message_of_line};

mod line_words; // The words of a line, one after the other, and what they say
mod line; // One line of a project that a person has typed

use arrayvec::ArrayVec;
use line::{Fields, Kind, Line, Reason, Setting};
use std::error::Error;
use std::fmt;
use std::marker::Model;
use words::append::Buffer;

// ---- the project as far as it was read

// At most 64 records of a kind.
#[derive(Drop)]
struct Records {
    all: ArrayVec<Fields, 64>,
}

impl Model for Records {
    ghost use Rattle.std.specs.Prelude.{List};
    ghost use Rattle.typed.specs.declared.line.Fields.{Fields};

    ghost Value = { List Fields };

    ghost view = { λ records. records.all.items };
}

impl Records {
    fn new() -> Self
        ensures { result ≡ [] }
    {
        Records {
            all: ArrayVec::new(),
        }
    }

    // A sixty-fifth is left out.
    fn push(&mut self, fields: Fields) -> Result<(), Reason>
        ensures answer { result ≡ answer_of (too_many (length self.old)) }
        ensures records { self.new ≡ pushed self.old fields }
    {
        self.all.try_push(fields).map_err(|_| Reason::TooMany)
    }

    fn as_slice(&self) -> &[Fields]
        ensures records { result.now ≡ self.now }
        ensures within { length self.now ≤ 64 }
    {
        self.all.as_slice()
    }
}

// The settings are the file's numbers: the place of a typed word in its table.
#[derive(Drop)]
struct Draft {
    kerf: u64,
    layout: u64,
    effort: u64,
    unit: u64,
    boards: Records,
    panels: Records,
}

impl Draft {
    fn new() -> Self
        ensures { result ≡ empty }
    {
        Draft {
            kerf: 0,
            layout: 0,
            effort: 0,
            unit: 0,
            boards: Records::new(),
            panels: Records::new(),
        }
    }

    fn set(&mut self, setting: Setting, number: u64)
        ensures { self.new ≡ with_setting self.old setting number }
    {
        match setting {
            Setting::Kerf => self.kerf = number,
            Setting::Layout => self.layout = number,
            Setting::Effort => self.effort = number,
            Setting::Unit => self.unit = number,
        }
    }

    // Takes what a line says, or answers why it cannot.
    fn add(&mut self, line: &[u8]) -> Result<(), Reason>
        ensures answer { result ≡ answer_of (reason_of self.old (line_of line.now)) }
        ensures project { self.new ≡ added self.old (line_of line.now) }
    {
        match line::read_line(line)? {
            Line::Blank => Ok(()),
            Line::Set(setting, number) => {
                self.set(setting, number);
                Ok(())
            }
            Line::Record(Kind::Board, fields) => self.boards.push(fields),
            Line::Record(Kind::Panel, fields) => self.panels.push(fields),
        }
    }

    // The project file, as the planner reads it.
    fn file(&self) -> Buffer<3104>
        ensures bytes { result ≡ file_text self.now }
        ensures formed { well_formed result ≡ true }
    {
        let boards = self.boards.as_slice();
        let panels = self.panels.as_slice();
        let mut file = Buffer::new();
        push_contents(&mut file, boards.len() as u64, panels.len() as u64);
        push_settings(&mut file, self.kerf, self.layout, self.effort, self.unit);
        push_records(&mut file, boards);
        push_records(&mut file, panels);
        file
    }
}

// ---- the file

// The start and the length of settings, stock and cuts.
fn push_contents(file: &mut Buffer<3104>, boards: u64, panels: u64)
    requires { (boards ≤ 64) × (panels ≤ 64) }
    ensures { file.new ≡ with_bytes 3104 file.old (contents_text boards panels) }
{
    file.push_number(24, 4);
    file.push_number(8, 4);
    file.push_number(32, 4);
    file.push_number(24 * boards, 4);
    file.push_number(32 + 24 * boards, 4);
    file.push_number(24 * panels, 4);
}

fn push_settings(file: &mut Buffer<3104>, kerf: u64, layout: u64, effort: u64, unit: u64)
    ensures { file.new ≡ with_bytes 3104 file.old (settings_text kerf layout effort unit) }
{
    file.push_number(kerf, 4);
    file.push_number(layout, 1);
    file.push_number(effort, 1);
    file.push_number(unit, 1);
    file.push_number(0, 1);
}

fn push_record(file: &mut Buffer<3104>, fields: &Fields)
    ensures { file.new ≡ with_bytes 3104 file.old (record_text fields.now) }
{
    file.push_number(fields.id, 8);
    file.push_number(fields.width, 4);
    file.push_number(fields.length, 4);
    file.push_number(fields.quantity, 4);
    file.push_number(fields.pattern, 1);
    file.push_number(fields.flag, 1);
    file.push_number(0, 2);
}

fn push_records(file: &mut Buffer<3104>, records: &[Fields])
    ensures { file.new ≡ with_bytes 3104 file.old (records_text records.now) }
{
    for fields in records {
        push_record(file, fields);
    }
}

// ---- the text

// A line that cannot be understood, and its number, counted from one.
#[derive(Clone, Copy, Debug, PartialEq, Eq)]
pub struct BadLine {
    pub number: usize,
    pub why: Reason,
}

impl fmt::Display for BadLine {
    ghost output = { λ bad. Some (message_of_line bad) };

    fn fmt<W: fmt::Write>(&self, f: &mut fmt::Formatter<W>) -> fmt::Result {
        let BadLine { number, why } = self;
        write!(f, "line {number}: {why}")
    }
}

impl Error for BadLine {}

fn project(text: &[u8]) -> Result<Draft, BadLine>
    ensures { result ≡ meaning text.now }
{
    let mut draft = Draft::new();
    for (index, line) in text.split(|byte| *byte == b'\n').enumerate() {
        if let Err(why) = draft.add(line) {
            return Err(BadLine {
                number: index + 1,
                why,
            });
        }
    }
    Ok(draft)
}

// The project file; or the first bad line.
pub fn parse(text: &[u8]) -> Result<Buffer<3104>, BadLine>
    ensures parsed { result ≡ file_of (meaning text.now) }
    ensures formed { IfOk result (λ file. well_formed file ≡ true) }
{
    Ok(project(text)?.file())
}
