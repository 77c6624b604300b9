// The table of what a station keeps of the others.
ghost use Rattle.std.specs.Prelude.{◌≡◌, ◌≤◌};
ghost use Rattle.journal.specs.Peers.{raised, least_known, lesser, heard_one, heard_all, wished, unwished, unmarked};

use protocol::entry::End;
use protocol::limits::MAX_STATIONS;
use vote::mask::contains;

// the table has a record for each number that a station can have
pub const PEERS: usize = MAX_STATIONS as usize;

// What a station keeps of another one: whether it was heard since the last own turn, up to which place both journals
// are known to agree, and the end that it asked to be let in with.
#[derive(Clone, Copy, PartialEq, Eq, Debug)]
pub struct Peer {
    pub heard: bool,
    pub known: u16,
    pub wish: Option<End>,
}

// Makes a station's known place at least k. By index, here and in the two below: no clause says what a table is after a
// write through `get_mut`; and each by itself, since a function over a closure would be longer than the three.
pub fn raise(peers: &mut [Peer; PEERS], s: u8, k: u16)
    ensures { peers.new ≡ raised s k peers.old }
{
    let at = usize::from(s);
    if at < PEERS {
        peers[at].known = peers[at].known.max(k);
    }
}

// Sets one heard mark.
pub fn hear(peers: &mut [Peer; PEERS], s: u8)
    ensures { peers.new ≡ heard_one s peers.old }
{
    let at = usize::from(s);
    if at < PEERS {
        peers[at].heard = true;
    }
}

// Sets every heard mark.
pub fn hear_all(peers: &mut [Peer; PEERS])
    ensures { peers.new ≡ heard_all peers.old }
{
    *peers = peers.map(|peer| Peer {
        heard: true,
        ..peer
    });
}

// Keeps a wish, in the place of an older one.
pub fn keep_wish(peers: &mut [Peer; PEERS], s: u8, end: End)
    ensures { peers.new ≡ wished s end peers.old }
{
    let at = usize::from(s);
    if at < PEERS {
        peers[at].wish = Some(end);
    }
}

// Clears every wish.
pub fn clear_wishes(peers: &mut [Peer; PEERS])
    ensures { peers.new ≡ unwished peers.old }
{
    *peers = peers.map(|peer| Peer { wish: None, ..peer });
}

// Clears every heard mark and every wish.
pub fn clear_marks(peers: &mut [Peer; PEERS])
    ensures { peers.new ≡ unmarked peers.old }
{
    *peers = peers.map(|peer| Peer {
        heard: false,
        wish: None,
        ..peer
    });
}

// The lesser of a place and the known place of station s, if s is another member of the view.
fn lesser_of(me: u8, view: u8, s: u8, p: &Peer, least: u16) -> u16
    ensures value { result ≡ lesser me view s p.now least }
    ensures bound { result ≤ least }
{
    if s != me && contains(view, s) {
        p.known.min(least)
    } else {
        least
    }
}

// The smallest of a length and the known places of the other members of a view.
pub fn least_of(peers: &[Peer; PEERS], me: u8, view: u8, length: u16) -> u16
    ensures value { result ≡ least_known me view 0 peers.now length }
    ensures bound { result ≤ length }
{
    let mut least = length;
    for (s, p) in peers.iter().enumerate() {
        least = lesser_of(me, view, s as u8, p, least);
    }
    least
}
