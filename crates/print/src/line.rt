// The lines that are printed.
ghost use Rattle.std.specs.Prelude.{◌≡◌, ◌+◌, ◌<◌, ◌≤◌, [], ◌++◌, Some, codes, length};
ghost use Rattle.print.specs.PrintLines.{body_text, cause_text, state_text, line_bytes, room, Added, Put};

use crate::text::{Text, add_amount, add_number, add_word};
use entries::customs_entry::CustomsEntry;
use journal::state::{Cause, State};
use protocol::entry::{Body, Entry};
use protocol::refusal::Refusal;
use std::alloc::AllocError;
use std::fmt;

// A refused line of the script with the refusal's number (any number: a Refusal would ask more), a station, an entry of its journal, or an entry of its book.
#[derive(Clone, Copy, PartialEq, Eq, Debug)]
pub enum Line {
    Refused {
        line: usize,
        number: u8,
    },
    Station {
        station: u8,
        state: State,
        firm: u16,
        length: usize,
    },
    Journal(Entry),
    Book(CustomsEntry),
}

fn cause_word(cause: Cause) -> &'static str
    ensures word { result.now ≡ cause_text cause }
    ensures len { length result.now ≤ 12 }
{
    match cause {
        Cause::Stopped => "out-stopped",
        Cause::Gap => "out-gap",
        Cause::PutOff => "out-putoff",
        Cause::Outvoted => "out-outvoted",
        Cause::Full => "out-full",
    }
}

fn state_word(state: State) -> &'static str
    ensures word { result.now ≡ state_text state }
    ensures len { length result.now ≤ 12 }
{
    match state {
        State::Running => "running",
        State::Joining => "joining",
        State::Out(cause) => cause_word(cause),
    }
}

// Adds what an entry holds, under its kind.
fn add_body(text: &mut Text, body: Body)
    requires { length text.old.bytes + 62 ≤ room }
    ensures value { text.new.bytes ≡ text.old.bytes ++ (codes " kind=" ++ body_text body) }
    ensures len { length text.new.bytes ≤ length text.old.bytes + 62 }
{
    match body {
        Body::Note(note) => {
            add_number(text, " kind=note a=", note.a);
            add_number(text, " b=", note.b);
            add_number(text, " c=", note.c);
            add_number(text, " d=", note.d);
        }
        Body::View(mask) => add_number(text, " kind=view mask=", mask),
    }
}

impl Line {
    // Writes the line into an empty text: part by part, since no clause of `fmt` says that a `write!` with room succeeds.
    // The text is the caller's, for handing one back would copy all its room.
    fn write(self, text: &mut Text)
        requires { text.old.bytes ≡ [] }
        ensures value { text.new.bytes ≡ line_bytes self }
        ensures fits { length text.new.bytes < room }
    {
        match self {
            Line::Refused { line, number } => {
                add_number(text, "line=", line);
                add_number(text, " refused=", number);
            }
            Line::Station {
                station,
                state,
                firm,
                length,
            } => {
                add_number(text, "station=", station);
                add_word(text, " state=", state_word(state));
                add_number(text, " firm=", firm);
                add_number(text, " length=", length);
            }
            Line::Journal(entry) => {
                add_number(text, "place=", entry.place);
                add_number(text, " turn=", entry.turn);
                add_body(text, entry.body);
            }
            Line::Book(entry) => {
                add_number(text, "entry=", entry.number);
                add_number(text, " price=", entry.price);
                add_number(text, " rate=", entry.rate);
                add_amount(text, " freight=", entry.freight);
                add_amount(text, " insurance=", entry.insurance);
                add_amount(text, " duty=", entry.duty);
            }
        }
    }

    // Writes the line at the front of a buffer, and answers how many bytes it has.
    pub fn put(self, buffer: &mut [u8]) -> Result<usize, Refusal>
        ensures { Put (line_bytes self) buffer.old buffer.new result }
    {
        let mut text = Text::new();
        self.write(&mut text);
        if buffer.len() < text.len() {
            return Err(Refusal::BufferTooShort);
        }
        buffer[..text.len()].copy_from_slice(text.as_str().as_bytes());
        Ok(text.len())
    }

    // Adds the line and the byte that ends it to a text, or nothing where memory is wanting.
    pub fn append(self, text: &mut Vec<u8>) -> Result<(), AllocError>
        ensures { Added (line_bytes self) text.old.items text.new.items result }
    {
        let mut line = Text::new();
        self.write(&mut line);
        line.push_str("\n");
        text.extend_from_slice(line.as_str().as_bytes())
    }
}

impl fmt::Display for Line {
    ghost output = { λ x. Some (line_bytes x) };

    fn fmt<W: fmt::Write>(&self, f: &mut fmt::Formatter<W>) -> fmt::Result {
        let mut text = Text::new();
        self.write(&mut text);
        write!(f, "{text}")
    }
}
