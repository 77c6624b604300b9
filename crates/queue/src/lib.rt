// A circular queue over places that the caller lends to each call.
//
// The queue itself is two numbers. Which list it holds depends on the places that it is lent: `contents` says so for
// every queue and every slice, so no pair of the two is inconsistent. The slice's length is the capacity. Pushing answers
// whether there was room: the item is a copy, and there is no other reason.
#![tactic(auto)]

ghost use Rattle.std.specs.Prelude.{◌≡◌, ◌<◌, false, length, is_some, nat_lt};
ghost use Rattle.std.specs.List.{slice_get};
ghost use Rattle.queue.specs.Contents.{contents, offered, oldest, rest, around, vacant};

#[derive(Clone, Copy)]
pub struct Queue {
    first: usize,
    len: usize,
}

impl Queue {
    // A queue that holds nothing, whatever places it is lent.
    pub const fn new() -> Queue
        ensures { result ≡ vacant }
    {
        Queue { first: 0, len: 0 }
    }

    // How many items wait.
    pub fn len<T>(&self, places: &[T]) -> usize
        ensures { result ≡ length (contents self.now places.now) }
    {
        self.len.min(places.len())
    }

    // Adds an item behind the others, or refuses it where every place is taken.
    pub fn push<T: Copy>(&mut self, places: &mut [T], x: T) -> bool
        ensures value { result ≡ nat_lt (length (contents self.old places.old)) (length places.old) }
        ensures after { contents self.new places.new ≡ offered (length places.old) x (contents self.old places.old) }
        ensures same { result ≡ false → (self.new ≡ self.old) × (places.new ≡ places.old) }
    {
        let room = places.len();
        let len = self.len.min(room);
        if len == room {
            return false;
        }
        let first = self.first % room;
        places[place(room, first, len)] = x;
        self.first = first;
        self.len = len + 1;
        true
    }

    // Removes the oldest item and answers it.
    pub fn pop<T: Copy>(&mut self, places: &[T]) -> Option<T>
        ensures value { result ≡ oldest (contents self.old places.now) }
        ensures after { contents self.new places.now ≡ rest (contents self.old places.now) }
        ensures same { is_some result ≡ false → self.new ≡ self.old }
    {
        let room = places.len();
        let len = self.len.min(room);
        if len == 0 {
            return None;
        }
        let first = self.first % room;
        let x = places[first];
        self.first = first + 1;
        self.len = len - 1;
        Some(x)
    }

    // The item that has `i` older ones before it.
    pub fn get<T: Copy>(&self, places: &[T], i: usize) -> Option<T>
        ensures { result ≡ slice_get (contents self.now places.now) i }
    {
        let room = places.len();
        if i >= self.len.min(room) {
            return None;
        }
        Some(places[place(room, self.first % room, i)])
    }

    // Lets go of every item.
    pub fn clear(&mut self)
        ensures { self.new ≡ vacant }
    {
        self.first = 0;
        self.len = 0;
    }
}

// The place that lies `i` after `first`, going round at the end. Their sum might not fit, so it is not formed.
fn place(room: usize, first: usize, i: usize) -> usize
    requires { (first < room) × (i < room) }
    ensures value { result ≡ around room first i }
    ensures bound { result < room }
{
    let before_end = room - first;
    if i < before_end {
        first + i
    } else {
        i - before_end
    }
}
