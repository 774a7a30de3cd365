// The field reader of a job file: questions 3 to 5 of document 01, and 6 of a field's length.
#![tactic(auto)]

ghost use Rattle.std.specs.Prelude.{◌≡◌, ◌<◌, length};
ghost use Rattle.rules.specs.JobFile.{in_place};
ghost use Rattle.fieldreader.specs.Reader.{row_of, field_at};

use fields::{is_whole, word_at};
use refusals::Refusal;

// A row of the table of fields: a tag with its shortest and longest value.
#[derive(Clone, Copy)]
pub struct FieldRow {
    pub tag: u8,
    pub least: u16,
    pub greatest: u16,
}

// Header, limit, job, need, comment, need with numbers of two bytes, most boards.
pub const ROWS: [FieldRow; 7] = [
    FieldRow {
        tag: 1,
        least: 1,
        greatest: 1,
    },
    FieldRow {
        tag: 2,
        least: 1,
        greatest: 1,
    },
    FieldRow {
        tag: 3,
        least: 3,
        greatest: 14,
    },
    FieldRow {
        tag: 4,
        least: 2,
        greatest: 2,
    },
    FieldRow {
        tag: 5,
        least: 0,
        greatest: 65535,
    },
    FieldRow {
        tag: 6,
        least: 4,
        greatest: 4,
    },
    FieldRow {
        tag: 9,
        least: 1,
        greatest: 1,
    },
];

// A field, its value from start to before end.
#[derive(Clone, Copy)]
pub struct Field {
    pub tag: u8,
    pub start: usize,
    pub end: usize,
}

// Question 5.
#[tactic(auto, unfolding(rules::specs::JobFile::in_place, rules::specs::Basics::choose))]
fn in_place(fields: usize, tag: u8) -> bool
    ensures { result ≡ in_place fields tag }
{
    match fields {
        0 => tag == 1,
        1 => tag == 2,
        _ => 3 <= tag,
    }
}

// The row of a tag, where it has one.
fn row_of(tag: u8) -> Option<FieldRow>
    ensures { result ≡ row_of tag }
{
    // No `ROWS.iter().find(..)`: it takes three times the instructions (34 for each field in place of 11, in a loop of calls).
    let row = match tag {
        1 => ROWS[0],
        2 => ROWS[1],
        3 => ROWS[2],
        4 => ROWS[3],
        5 => ROWS[4],
        6 => ROWS[5],
        _ => ROWS[6],
    };
    if row.tag == tag { Some(row) } else { None }
}

// The field at offset `at` behind `fields` others: questions 3 to 5, and 6 of its length.
pub fn field_at(file: &[u8], at: usize, fields: usize) -> Result<Field, Refusal>
    requires { at < length file.now }
    ensures { result ≡ field_at file.now at fields }
{
    if !is_whole(file, at) {
        return Err(Refusal::CutField);
    }
    let tag = file[at];
    let row = row_of(tag).ok_or(Refusal::UnknownTag)?;
    if !in_place(fields, tag) {
        return Err(Refusal::MisplacedTag);
    }
    let start = at + 3;
    let word = word_at(file, at + 1);
    let len = usize::from(word);
    if !(usize::from(row.least)..=usize::from(row.greatest)).contains(&len) {
        return Err(Refusal::BadValue);
    }
    Ok(Field {
        tag,
        start,
        end: start + len,
    })
}
