// The command that a line of a script is.
ghost use Rattle.std.specs.Prelude.{◌≡◌, ℕ, ◌^◌, ◌<◌, List, [], Ok, MatchOption, ◌≢◌};
ghost use Rattle.protocol.specs.declared.note.Note.{Note};
ghost use Rattle.script.specs.Arguments.{left};
ghost use Rattle.script.specs.Commands.{written, Sized, SizedCall};
ghost use Rattle.script.specs.Parts.{numbered, station_part, note_part, Asks, Does, Follows};
ghost use Rattle.script.specs.Reading.{Reads, WrittenOnce, reading};
ghost use Rattle.script.specs.Words.{Free};
ghost use Rattle.runs.specs.declared.call.Call.TheVariants.{Note as NoteCall};
ghost use Rattle.script.specs.declared.verb.Verb.TheVariants.{Note as NoteVerb};

use crate::number::number;
use crate::verb::{Verb, read_verb};
use crate::words::{Word, field_at};
use protocol::note::Note;
use protocol::refusal::Refusal;
use runs::call::Call;

// What a line asks for: a roll of so many stations, or a call.
#[derive(Clone, Copy, PartialEq, Eq, Debug)]
pub enum Command {
    Roll(u32),
    Call(Call),
}

// The arguments of a line that are not read yet: the place of the next key, if one follows.
#[derive(Drop)]
struct Arguments<'a> {
    line: &'a [u8],
    next: Option<usize>,
}

impl Arguments<'_> {
    // The number under a key that comes next.
    fn number(&mut self, key: &[u8]) -> Option<u32>
        requires { Free 61 key.now }
        ensures { MatchOption result ((n : ℕ) (t : List ℕ) → n < 2 ^ 32 → Follows t → left self.old ≢ numbered key.now n t) (λ n. (left self.old ≡ numbered key.now n (left self.new)) × (n < 2 ^ 32)) }
    {
        let field = field_at(self.line, self.next?)?;
        let (Word::Key { bytes: word, .. }, Word::Value { bytes: value, .. }, next) = field else {
            return None;
        };
        if word != key {
            return None;
        }
        self.next = next;
        number(value)
    }

    // The answer that takes no more arguments.
    fn end<T: Drop>(self, answer: T) -> Option<T>
        ensures { MatchOption result (left self.entry ≢ []) (λ a. (left self.entry ≡ []) × (a ≡ answer)) }
    {
        self.next.is_none().then_some(answer)
    }
}

// The one argument `at`.
fn station(mut rest: Arguments<'_>) -> Option<u32>
    ensures { MatchOption result ((n : ℕ) → n < 2 ^ 32 → left rest.entry ≢ station_part n) (λ n. (left rest.entry ≡ station_part n) × (n < 2 ^ 32)) }
{
    let at = rest.number(b"at")?;
    rest.end(at)
}

// The five arguments of a note.
fn note_call(mut rest: Arguments<'_>) -> Option<Call>
    ensures { MatchOption result ((s : ℕ) (x : Note) → SizedCall (NoteCall s x) → left rest.entry ≢ note_part s x) (λ c. Does NoteVerb (left rest.entry) c × SizedCall c) }
{
    let at = rest.number(b"at")?;
    let a = rest.number(b"a")?;
    let b = rest.number(b"b")?;
    let c = rest.number(b"c")?;
    let d = rest.number(b"d")?;
    rest.end(Call::Note {
        at,
        note: Note { a, b, c, d },
    })
}

// The call of a verb with its arguments.
fn call_of(verb: Verb, rest: Arguments<'_>) -> Option<Call>
    ensures { MatchOption result ((c : Call) → SizedCall c → Does verb (left rest.entry) c → ⊥) (λ c. Does verb (left rest.entry) c × SizedCall c) }
{
    match verb {
        Verb::Note => note_call(rest),
        Verb::Turn => rest.end(Call::Turn),
        Verb::Take => station(rest).map(|at| Call::Take { at }),
        Verb::Lose => station(rest).map(|at| Call::Lose { at }),
        Verb::Stop => station(rest).map(|at| Call::Stop { at }),
        Verb::Enter => station(rest).map(|at| Call::Enter { at }),
    }
}

// The command of a line's first key and value, with the arguments after them.
fn asked(key: &[u8], value: &[u8], rest: Arguments<'_>) -> Option<Command>
    ensures { MatchOption result ((k : Command) → Sized k → Asks key.now value.now (left rest.entry) k → ⊥) (λ k. Asks key.now value.now (left rest.entry) k × Sized k) }
{
    match key {
        b"roll" => rest.end(Command::Roll(number(value)?)),
        b"do" => call_of(read_verb(value)?, rest).map(Command::Call),
        _ => None,
    }
}

// The command that is written as the line.
fn read_command(line: &[u8]) -> Option<Command>
    ensures { MatchOption result ((k : Command) → Sized k → line.now ≢ written k) (λ k. (line.now ≡ written k) × Sized k) }
{
    let field = field_at(line, 0)?;
    let (Word::Key { bytes: key, .. }, Word::Value { bytes: value, .. }, next) = field else {
        return None;
    };
    asked(key, value, Arguments { line, next })
}

// The command that a line is: the one that is written so.
pub fn command_of(line: &[u8]) -> Result<Command, Refusal>
    ensures reads { Reads line.now result }
    ensures exact { (k : Command) → Sized k → line.now ≡ written k → result ≡ Ok k }
    ensures value { result ≡ reading line.now }
{
    read_command(line).ok_or(Refusal::MisshapenLine)
}

// Two commands are never written alike.
pub fn written_once()
    ensures { WrittenOnce }
{}
