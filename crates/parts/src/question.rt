// What a letter of a case asks.
use super::changes::show_letters;
use super::columns::{show_text, show_written};
use super::records::{Page, show_changes, show_page, show_read, show_refusal};
use super::windows::{show_marks, show_windows};
use std::io;
use std::io::Write;

// The numbers in the text before are a, b and c.
#[derive(Clone, Copy, PartialEq, Eq, Debug)]
pub enum Question {
    // What a growth from a disks by b does with each block, of c rows.
    Letters,
    // The windows of the newest growth.
    Windows,
    // The marks of one of its windows.
    Marks,
    // The column of number a.
    Column,
    // What the text behind the bracket is read as.
    Text,
    // The bytes of the worked record.
    Page,
    // What it is read as.
    Read,
    // How many of its changes are accepted.
    Accepted,
    // How many are refused.
    Refused,
    // The refusal of its first a bytes.
    Refusal,
}

impl From<char> for Question {
    fn from(letter: char) -> Question {
        match letter {
            'L' => Question::Letters,
            'W' => Question::Windows,
            'M' => Question::Marks,
            'C' => Question::Column,
            'T' => Question::Text,
            'P' => Question::Page,
            'B' => Question::Read,
            'Y' => Question::Accepted,
            'Z' => Question::Refused,
            _ => Question::Refusal,
        }
    }
}

pub fn answer(
    out: &mut impl Write,
    question: Question,
    before: &str,
    numbers: &[usize],
    page: &Page,
) -> io::Result<()> {
    match question {
        Question::Letters => show_letters(out, numbers),
        Question::Windows => show_windows(out, numbers),
        Question::Marks => show_marks(out, numbers),
        Question::Column => show_written(out, numbers),
        Question::Text => show_text(out, before),
        Question::Page => show_page(out, page),
        Question::Read => show_read(out, page),
        Question::Accepted => show_changes(out, page, numbers, true),
        Question::Refused => show_changes(out, page, numbers, false),
        Question::Refusal => show_refusal(out, page, numbers),
    }
}
