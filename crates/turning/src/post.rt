// Posting what a station says.
ghost use Rattle.std.specs.Prelude.{◌≡◌, ◌<◌, length};
ghost use Rattle.protocol.specs.Limits.{journal_places};
ghost use Rattle.wires.specs.Calls.{posted_all};
ghost use Rattle.journal.specs.Core.{core_of};
ghost use Rattle.turning.specs.Posts.{frames_of, say_body, Performed};

use journal::reading::last_turn;
use journal::status::Status;
use journal::store::Journal;
use protocol::entry::{Body, Entry};
use protocol::frame::Frame;
use wires::wire::Wire;

// Posts entries, the first of which follows an entry of turn `before`.
pub fn post_entries<W: Wire<Frame>>(wire: &mut W, me: u8, entries: &[Entry], before: u32)
    ensures { W.lines wire.new ≡ posted_all (W.lines wire.old) me (frames_of me before entries.now) }
{
    let mut last = before;
    for e in entries {
        let _ = wire.post(
            me,
            Frame::Entry {
                sender: me,
                entry: *e,
                before: last,
            },
        );
        last = e.turn;
    }
}

// Appends an entry of turn t and posts it.
pub fn say_body<J: Journal, W: Wire<Frame>>(
    status: &Status,
    journal: &mut J,
    wire: &mut W,
    t: u32,
    body: Body,
)
    requires { length (J.entries journal.old) < journal_places }
    ensures home { J.home journal.new ≡ J.home journal.old }
    ensures turn { Performed status.now.me (say_body t body (core_of status.now (J.entries journal.old))) (core_of status.now (J.entries journal.new)) (W.lines wire.old) (W.lines wire.new) }
{
    let held = journal.as_slice();
    let before = last_turn(held);
    let entry = Entry {
        place: held.len() as u16 + 1,
        turn: t,
        body,
    };
    journal.push(entry);
    let _ = wire.post(
        status.me,
        Frame::Entry {
            sender: status.me,
            entry,
            before,
        },
    );
}
