// A line as words: a key up to `=`, a value up to a space or the end.
ghost use Rattle.std.specs.Prelude.{◌≡◌, ◌+◌, ◌∷◌, ◌++◌, length, drop, MatchOption};
ghost use Rattle.script.specs.Words.{Free, IsField};

// A word with its place in the line, from which it borrows its bytes. A rule of the project wants this form.
#[derive(Clone, Copy)]
pub(crate) enum Word<'a> {
    Key { place: usize, bytes: &'a [u8] },
    Value { place: usize, bytes: &'a [u8] },
}

// What stands before the first `stop`, and what stands after it: `split_once`, which slices do not have.
pub(crate) fn cut(bytes: &[u8], stop: u8) -> (&[u8], Option<&[u8]>)
    ensures free { Free stop result.0.now }
    ensures whole { MatchOption result.1 (bytes.now ≡ result.0.now) (λ t. bytes.now ≡ result.0.now ++ (stop ∷ t.now)) }
    ensures long { MatchOption result.1 (length bytes.now ≡ length result.0.now) (λ t. length bytes.now ≡ length result.0.now + 1 + length t.now) }
{
    match bytes.iter().position(|byte| *byte == stop) {
        Some(at) => (&bytes[..at], Some(&bytes[at + 1..])),
        None => (bytes, None),
    }
}

// The key and the value that stand at a place of the line, and the place of the next key.
pub(crate) fn field_at(line: &[u8], at: usize) -> Option<(Word<'_>, Word<'_>, Option<usize>)>
    ensures { MatchOption result (Free 61 (drop at line.now)) (λ f. IsField line.now at f.0 f.1 f.2) }
{
    let (key, after) = cut(line.get(at..)?, b'=');
    let (value, rest) = cut(after?, b' ');
    let place = at + key.len() + 1;
    let next = rest.map(|_| place + value.len() + 1);
    let key = Word::Key {
        place: at,
        bytes: key,
    };
    let value = Word::Value {
        place,
        bytes: value,
    };
    Some((key, value, next))
}
