// The second step of a turn: the wish to serve.
ghost use Rattle.std.specs.Prelude.{◌≡◌, length};
ghost use Rattle.journal.specs.Core.{core_of};
ghost use Rattle.turning.specs.Steps.{any_wish, asked, chosen, PlaceWithin, WishWithin};

use crate::ring::station_after;
use journal::peer::{PEERS, Peer};
use journal::reading::end_matches;
use journal::status::Status;
use protocol::entry::{End, Entry};
use vote::mask::contains;

// Whether any wish stands.
fn has_wish(peers: &[Peer; PEERS]) -> bool
    ensures { result ≡ any_wish peers.now }
{
    peers.iter().any(|p| p.wish.is_some())
}

// The place after which a wish asks for entries, if the wish matches.
fn asked_place(journal: &[Entry], wish: Option<End>) -> Option<u16>
    ensures value { result ≡ asked journal.now wish }
    ensures bound { PlaceWithin (length journal.now) result }
{
    let end = wish?;
    end_matches(journal, end).then_some(end.0)
}

// The nearest matching wish, going back, of a station that has this one as its next other member: whose it is, and
// the place after which it asks for entries.
pub fn wish_to_serve(status: &Status, journal: &[Entry]) -> Option<(u8, u16)>
    ensures value { result ≡ chosen (core_of status.now journal.now) }
    ensures bound { WishWithin status.now.roll (length journal.now) result }
{
    if !has_wish(&status.peers) {
        return None;
    }
    let view = status.newest_view(journal);
    // the search back round the ring is nested loops left by label, as a rule of the project asks
    'search: for left in (1..status.roll).rev() {
        let at = station_after(status.roll, status.me, left);
        let Some(place) = asked_place(journal, status.peers[at as usize].wish) else {
            continue 'search;
        };
        // on from there to its next other member
        for k in 1..status.roll {
            let next = station_after(status.roll, at, k);
            if contains(view, next) {
                if next == status.me {
                    return Some((at, place));
                }
                continue 'search;
            }
        }
    }
    None
}
