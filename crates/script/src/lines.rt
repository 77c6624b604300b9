// A text cut into lines.
ghost use Rattle.std.specs.Iterator.{YieldsFirstRef, item_count};
ghost use Rattle.script.specs.Lines.{unread_lines};

use crate::words::cut;

// The lines of the text that is left, if one is. `split` would give one more, an empty one, after a last byte 10.
#[derive(Drop)]
pub(crate) struct Lines<'a> {
    pub(crate) left: Option<&'a [u8]>,
}

impl<'a> Iterator for Lines<'a> {
    type Item = &'a [u8];

    ghost next_gives = { YieldsFirstRef unread_lines };

    ghost remaining = { item_count unread_lines };

    fn next(&mut self) -> Option<&'a [u8]> {
        let (line, rest) = cut(self.left?, b'\n');
        self.left = rest.filter(|text| !text.is_empty());
        Some(line)
    }
}
