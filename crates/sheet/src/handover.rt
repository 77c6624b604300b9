// The hand-over sheet.
ghost use Rattle.std.specs.Prelude.{◌≡◌, IfOk, Ok, Err, string_bytes};
ghost use Rattle.entries.specs.EntryBook.{entry_of};
ghost use Rattle.entries.specs.EntryState.{entries_of};
ghost use Rattle.sheet.specs.Sheet.{sheet, duty_in, filed_with};

use crate::line::SheetLine;
use entries::entry_book::EntryBook;
use std::alloc::{AllocError, Global};

// The entries that are not filed yet, the newest on top, a line for each.
pub fn handover_sheet(heap: Global, book: &EntryBook, filed: &[u32]) -> Result<String, AllocError>
    ensures { IfOk result (λ text. string_bytes text ≡ sheet filed.now (entries_of book.now)) }
{
    let mut text = String::new(heap);
    for entry in book.entries().iter().rev() {
        if !filed.contains(&entry.number) {
            writeln!(text, "    {}", SheetLine(*entry))?;
        }
    }
    Ok(text)
}

// Files the entry of that number, and answers its duty. An entry that is not closed cannot be filed.
pub fn file_entry(
    book: &EntryBook,
    filed: &mut Vec<u32>,
    number: u32,
) -> Result<Option<u32>, AllocError>
    ensures { elim result [ Ok duty ↦ (duty ≡ duty_in (entry_of number (entries_of book.now))) × (filed.new.items ≡ filed_with duty number filed.old.items) | Err _ ↦ filed.new.items ≡ filed.old.items ] }
{
    let duty = book.find(number).and_then(|entry| entry.duty);
    if duty.is_some() {
        filed.push(number)?;
    }
    Ok(duty)
}
