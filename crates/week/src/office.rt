// The office: a ring of three stations, and the numbers of the entries that are filed.
use anyhow::anyhow;
use asking::{book, firm, len, state};
use books::book::{Book, StartingBook};
use entries::entry_book::EntryBook;
use journal::state::State;
use lines::line_wire::LineWire;
use protocol::frame::Frame;
use protocol::limits::LINE_PLACES;
use protocol::note::Note;
use ring::ring::Ring;
use sheet::amount::Amount;
use sheet::handover::{file_entry, handover_sheet};
use sheet::outcome::Outcome;
use sheet::request::Request;
use vote::heads::Heads;

const STATIONS: u32 = 3;

#[derive(Drop)]
pub struct Office {
    ring: Ring<LineWire<Frame>, EntryBook, Heads>,
    filed: Vec<u32>,
}

// The state of a station in a word, which says less than a print of it.
fn word(state: State) -> &'static str {
    match state {
        State::Running => "running",
        State::Joining => "joining",
        State::Out(_) => "out",
    }
}

impl Office {
    // A new ring, whose books start from a book with one entry.
    pub fn new(rt: &HostRuntime, older: Note) -> anyhow::Result<Office> {
        let heap = rt.alloc();
        let mut book = EntryBook::new(heap)?;
        let request = Request(older);
        println!(rt; "Last Friday: {request}")?;
        let outcome = Outcome(book.give(older));
        println!(rt; "  {outcome}")?;
        let places = vec![in heap; Frame::IDLE; STATIONS as usize * LINE_PLACES]?;
        let wire = LineWire::new(STATIONS, places).map_err(|rejected| rejected.refusal)?;
        let rule = Heads::new(STATIONS)?;
        let ring = Ring::new(heap, wire, rule, &book).map_err(|_| anyhow!("no ring"))?;
        let filed = Vec::new(heap);
        Ok(Office { ring, filed })
    }

    // A station is given a note.
    pub fn note(&mut self, rt: &HostRuntime, at: u32, note: Note) -> anyhow::Result<()> {
        let request = Request(note);
        match self.ring.note(at, note) {
            Ok(_) => println!(rt; "  station {at}: {request}")?,
            Err(refusal) => {
                let number = refusal.number();
                println!(rt; "  station {at}: {request}, refused with {number}")?;
            }
        }
        Ok(())
    }

    // Every station takes the frames of its line.
    fn take_all(&mut self) {
        for at in 0..STATIONS {
            // no line has more frames
            for _ in 0..LINE_PLACES {
                if self.ring.take(at).is_err() {
                    break;
                }
            }
        }
    }

    // So many turns; after each, every station takes its frames.
    pub fn turns(&mut self, rt: &HostRuntime, count: u32) -> anyhow::Result<()> {
        for _ in 0..count {
            let number = self.ring.next_turn();
            self.ring.turn()?;
            println!(rt; "  turn {number}")?;
            self.take_all();
        }
        Ok(())
    }

    pub fn stop(&mut self, rt: &HostRuntime, at: u32) -> anyhow::Result<()> {
        if self.ring.stop(at).is_ok() {
            println!(rt; "  station {at} is stopped")?;
        }
        Ok(())
    }

    pub fn enter(&mut self, rt: &HostRuntime, at: u32) -> anyhow::Result<()> {
        if self.ring.enter(at).is_ok() {
            println!(rt; "  station {at} asks to be let in again")?;
        }
        Ok(())
    }

    // What a station's book would answer to a note now.
    pub fn ask(&self, rt: &HostRuntime, at: u32, note: Note) -> anyhow::Result<()> {
        let mut trial = book(&self.ring, at)?.duplicate()?;
        let request = Request(note);
        let outcome = Outcome(trial.give(note));
        println!(rt; "  {request} now would be {outcome}")?;
        Ok(())
    }

    // What each station holds.
    pub fn show(&self, rt: &HostRuntime) -> anyhow::Result<()> {
        for at in 0..STATIONS {
            self.show_station(rt, at)?;
        }
        Ok(())
    }

    fn show_station(&self, rt: &HostRuntime, at: u32) -> anyhow::Result<()> {
        let state = word(state(&self.ring, at)?);
        let firm = firm(&self.ring, at)?;
        let length = len(&self.ring, at)?;
        println!(rt; "  station {at}: {state}, {firm} of {length} firm; not filed yet:")?;
        let held = book(&self.ring, at)?;
        let sheet = handover_sheet(rt.alloc(), held, self.filed.as_slice())?;
        print!(rt; "{sheet}")?;
        Ok(())
    }

    // A station files an entry.
    pub fn file(&mut self, rt: &HostRuntime, at: u32, number: u32) -> anyhow::Result<()> {
        let held = book(&self.ring, at)?;
        match file_entry(held, &mut self.filed, number)? {
            Some(cents) => {
                let duty = Amount(cents);
                println!(rt; "  station {at} files entry {number} at {duty}")?;
            }
            None => println!(rt; "  station {at} cannot file entry {number} before it is closed")?,
        }
        Ok(())
    }
}
