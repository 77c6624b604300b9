// The print of a ring's stations.
ghost use Rattle.std.specs.Prelude.{Some};
ghost use Rattle.entries.specs.EntryState.{entries_of};
ghost use Rattle.lines.specs.LineWire.{line_lines};
ghost use Rattle.station.specs.Meaning.{model};
ghost use Rattle.ring.specs.Meaning.{meaning};
ghost use Rattle.replay.specs.Print.{journal_text, book_text, station_text, stations_text, Extended};

use crate::replay::EntryRing;
use entries::entry_book::EntryBook;
use print::line::Line;
use station::station::Station;
use std::alloc::AllocError;

// Adds a station's journal, place by place.
fn append_journal(station: &Station<EntryBook>, text: &mut Vec<u8>) -> Result<(), AllocError>
    ensures { Extended (journal_text (model entries_of station.now).core.journal) text.old.items text.new.items result }
{
    for entry in station.journal() {
        Line::Journal(*entry).append(text)?;
    }
    Ok(())
}

// Adds the entries of a book, in order of opening.
fn append_book(book: &EntryBook, text: &mut Vec<u8>) -> Result<(), AllocError>
    ensures { Extended (book_text (entries_of book.now)) text.old.items text.new.items result }
{
    for entry in book.entries() {
        Line::Book(*entry).append(text)?;
    }
    Ok(())
}

// Adds a station with its journal and its book.
fn append_station(
    station: &Station<EntryBook>,
    at: u8,
    text: &mut Vec<u8>,
) -> Result<(), AllocError>
    ensures { Extended (station_text at (Some (model entries_of station.now))) text.old.items text.new.items result }
{
    let line = Line::Station {
        station: at,
        state: station.state(),
        firm: station.firm(),
        length: station.len(),
    };
    line.append(text)?;
    append_journal(station, text)?;
    append_book(station.book(), text)
}

// Adds the stations of a roll, by number, which is printed with each.
pub(crate) fn append_stations(
    ring: &EntryRing,
    roll: u8,
    text: &mut Vec<u8>,
) -> Result<(), AllocError>
    ensures { Extended (stations_text (meaning entries_of line_lines ring.now).stations 0 roll) text.old.items text.new.items result }
{
    for at in 0..roll {
        if let Ok(station) = ring.station(u32::from(at)) {
            append_station(station, at, text)?;
        }
    }
    Ok(())
}
