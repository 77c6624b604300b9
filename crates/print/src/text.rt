// The text of a line, put together without memory from the heap.
ghost use Rattle.std.specs.Prelude.{◌≡◌, ◌+◌, ◌≤◌, ◌++◌, length};
ghost use Rattle.print.specs.PrintLines.{amount_text, room};

use arrayvec::ArrayString;
use itoa::{Buffer, Integer};

// bytes for the longest line and the one that ends it
const ROOM: usize = 128;

// A line so far.
pub(crate) type Text = ArrayString<ROOM>;

// Adds a word under its label.
pub(crate) fn add_word(text: &mut Text, label: &str, word: &str)
    requires { length text.old.bytes + length label.now + length word.now ≤ room }
    ensures { text.new.bytes ≡ text.old.bytes ++ (label.now ++ word.now) }
{
    text.push_str(label);
    text.push_str(word);
}

// Adds a number under its label.
pub(crate) fn add_number<I: Integer>(text: &mut Text, label: &str, n: I)
    requires { length text.old.bytes + length label.now + I.MAX_STR_LEN ≤ room }
    ensures value { text.new.bytes ≡ text.old.bytes ++ (label.now ++ I.text n) }
    ensures len { length text.new.bytes ≤ length text.old.bytes + length label.now + I.MAX_STR_LEN }
{
    let mut digits = Buffer::new();
    add_word(text, label, digits.format(n));
}

// Adds an amount, which may be absent, under its label.
pub(crate) fn add_amount(text: &mut Text, label: &str, cents: Option<u32>)
    requires { length text.old.bytes + length label.now + 10 ≤ room }
    ensures value { text.new.bytes ≡ text.old.bytes ++ (label.now ++ amount_text cents) }
    ensures len { length text.new.bytes ≤ length text.old.bytes + length label.now + 10 }
{
    match cents {
        Some(n) => add_number(text, label, n),
        None => add_word(text, label, "none"),
    }
}
