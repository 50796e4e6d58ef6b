// What a line asks for: a word, with as many numbers as it takes. README.md lists the words.
use super::lines::{numbers_of, text_of, word_of};
use super::states::volume_of;
use layout::{Block, Row, Spot};
use spans::{Span, Spans};
use std::alloc::{AllocError, Global};
use volume::Volume;

// A call that hands a state back.
#[derive(Clone, Copy)]
pub enum Call {
    Format {
        size: usize,
        rows: usize,
        disks: usize,
    },
    Restart,
    Sector,
    Grow(usize),
    GrowBeyondDoubling(usize),
    Copy(Block),
    Checkpoint,
    Advance,
    Flushed,
    Write {
        block: Block,
        size: usize,
        byte: u8,
    },
    ClientWrite {
        client: usize,
        block: Block,
        size: usize,
        byte: u8,
    },
}

// What leaves the run as it is.
#[derive(Clone, Copy)]
pub enum Question {
    Read {
        block: Block,
        size: usize,
    },
    ClientRead {
        client: usize,
        block: Block,
        size: usize,
    },
    Reads {
        first: usize,
        end: usize,
    },
    View {
        block: Block,
        disks: usize,
    },
    ViewOfLengths {
        block: Block,
        disks: usize,
        first: usize,
        second: usize,
    },
    Chart {
        len: usize,
    },
    ChartOfRecord {
        len: usize,
    },
    Address(Block),
    Holder(Spot),
    Addresses {
        end: usize,
    },
    Moves {
        end: usize,
    },
    TableMove {
        disks: usize,
        added: usize,
        mark: usize,
    },
}

// What changes the run from outside.
#[derive(Clone, Copy)]
pub enum Change<'a> {
    State(Volume),
    Medium { lent: usize },
    Cache(bool),
    Keep,
    Back { at: usize, count: usize },
    Put { at: usize, count: usize, byte: u8 },
    Bytes { at: usize, text: &'a [u8] },
    Record,
    Spans(Spans),
    Table(Spans),
}

#[derive(Clone, Copy)]
pub enum Command<'a> {
    Call(Call),
    Saves { first: usize, end: usize },
    Ask(Question),
    Set(Change<'a>),
}

fn byte_of(n: usize) -> u8 {
    (n % 256) as u8
}

fn table_of([a, b, c, d]: [usize; 4]) -> Spans {
    Spans {
        zero: Span { first: a, count: b },
        one: Span { first: c, count: d },
    }
}

impl Call {
    fn parse(word: &[u8], numbers: &[usize]) -> Option<Self> {
        Some(match (word, numbers) {
            (b"format", &[size, rows, disks]) => Call::Format { size, rows, disks },
            (b"restart", []) => Call::Restart,
            (b"sector", []) => Call::Sector,
            (b"grow", &[count]) => Call::Grow(count),
            (b"grow-beyond-doubling", &[count]) => Call::GrowBeyondDoubling(count),
            (b"copy", &[x]) => Call::Copy(Block(x)),
            (b"checkpoint", []) => Call::Checkpoint,
            (b"advance", []) => Call::Advance,
            (b"flushed", []) => Call::Flushed,
            (b"write", &[x, size, n]) => Call::Write {
                block: Block(x),
                size,
                byte: byte_of(n),
            },
            (b"client-write", &[client, x, size, n]) => Call::ClientWrite {
                client,
                block: Block(x),
                size,
                byte: byte_of(n),
            },
            _ => return None,
        })
    }
}

impl Question {
    fn parse(word: &[u8], numbers: &[usize]) -> Option<Self> {
        Some(match (word, numbers) {
            (b"read", &[x, size]) => Question::Read {
                block: Block(x),
                size,
            },
            (b"client-read", &[client, x, size]) => Question::ClientRead {
                client,
                block: Block(x),
                size,
            },
            (b"reads", &[first, end]) => Question::Reads { first, end },
            (b"view", &[x, disks]) => Question::View {
                block: Block(x),
                disks,
            },
            (b"view", &[x, disks, first, second]) => Question::ViewOfLengths {
                block: Block(x),
                disks,
                first,
                second,
            },
            (b"chart", &[len]) => Question::Chart { len },
            (b"chart-of-record", &[len]) => Question::ChartOfRecord { len },
            (b"address", &[x]) => Question::Address(Block(x)),
            (b"holder", &[disk, row]) => Question::Holder(Spot {
                disk,
                row: Row(row),
            }),
            (b"addresses", &[end]) => Question::Addresses { end },
            (b"moves", &[end]) => Question::Moves { end },
            (b"table-move", &[disks, added, mark]) => Question::TableMove { disks, added, mark },
            _ => return None,
        })
    }
}

impl<'a> Change<'a> {
    fn parse(line: &'a [u8], word: &[u8], numbers: &[usize]) -> Option<Self> {
        Some(match (word, numbers) {
            (b"state", _) => Change::State(volume_of(numbers)?),
            (b"medium", &[lent]) => Change::Medium { lent },
            (b"cache", &[cached]) => Change::Cache(cached != 0),
            (b"keep", []) => Change::Keep,
            (b"back", &[at, count]) => Change::Back { at, count },
            (b"put", &[at, count, n]) => Change::Put {
                at,
                count,
                byte: byte_of(n),
            },
            // Text may follow the first number, and have numbers in it.
            (b"bytes", _) => Change::Bytes {
                at: numbers.first().copied().unwrap_or(0),
                text: text_of(line).unwrap_or(b""),
            },
            (b"record", []) => Change::Record,
            (b"spans", &[a, b, c, d]) => Change::Spans(table_of([a, b, c, d])),
            (b"table", &[a, b, c, d]) => Change::Table(table_of([a, b, c, d])),
            _ => return None,
        })
    }
}

impl<'a> Command<'a> {
    // None where no command has the word, or not so many numbers follow it.
    pub fn parse(alloc: Global, line: &'a [u8]) -> Result<Option<Self>, AllocError> {
        let word = word_of(line);
        let list = numbers_of(alloc, line)?;
        let numbers = list.as_slice();
        if let (b"saves", &[first, end]) = (word, numbers) {
            return Ok(Some(Command::Saves { first, end }));
        }
        if let Some(call) = Call::parse(word, numbers) {
            return Ok(Some(Command::Call(call)));
        }
        if let Some(question) = Question::parse(word, numbers) {
            return Ok(Some(Command::Ask(question)));
        }
        match Change::parse(line, word, numbers) {
            Some(change) => Ok(Some(Command::Set(change))),
            None => Ok(None),
        }
    }
}
