// The second step of a turn: serving a wish.
ghost use Rattle.std.specs.Prelude.{◌≡◌, ◌≤◌, length};
ghost use Rattle.journal.specs.Core.{core_of};
ghost use Rattle.turning.specs.Posts.{Performed};
ghost use Rattle.turning.specs.Steps.{lets_in, serve};

use crate::post::{post_entries, say_body};
use journal::reading::turn_at;
use journal::status::Status;
use journal::store::Journal;
use protocol::entry::Body;
use protocol::frame::Frame;
use protocol::limits::{JOURNAL_PLACES, RESENT_PER_TURN};
use vote::mask::with;
use wires::wire::Wire;

// Whether the entries after a place can all be posted again, and there is room for one more.
fn lets_in(length: usize, place: usize) -> bool
    requires { place ≤ length }
    ensures { result ≡ lets_in length place }
{
    length - place <= RESENT_PER_TURN && length < JOURNAL_PLACES
}

// Posts the entries after a place again, and lets the station in where that was all.
pub fn serve<J: Journal, W: Wire<Frame>>(
    status: &Status,
    journal: &mut J,
    wire: &mut W,
    t: u32,
    station: u8,
    place: u16,
)
    requires { place ≤ length (J.entries journal.old) }
    ensures home { J.home journal.new ≡ J.home journal.old }
    ensures turn { Performed status.now.me (serve t station place (core_of status.now (J.entries journal.old))) (core_of status.now (J.entries journal.new)) (W.lines wire.old) (W.lines wire.new) }
{
    let held = journal.as_slice();
    let length = held.len();
    let from = place as usize;
    let to = length.min(from + RESENT_PER_TURN);
    post_entries(wire, status.me, &held[from..to], turn_at(held, from));
    if lets_in(length, from) {
        let view = status.newest_view(held);
        say_body(status, journal, wire, t, Body::View(with(view, station)));
    }
}
