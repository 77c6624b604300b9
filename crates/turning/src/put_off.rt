// The first step of a turn: members that were not heard are put off.
ghost use Rattle.std.specs.Prelude.{◌≡◌};
ghost use Rattle.journal.specs.Core.{core_of};
ghost use Rattle.turning.specs.Posts.{Performed};
ghost use Rattle.turning.specs.Round.{going_back};
ghost use Rattle.turning.specs.Steps.{unheard, put_off};

use crate::post::say_body;
use crate::ring::station_after;
use journal::state::{Cause, State};
use journal::status::Status;
use journal::store::Journal;
use protocol::entry::Body;
use protocol::frame::Frame;
use protocol::limits::JOURNAL_PLACES;
use vote::mask::{contains, with, without};
use vote::rule::VotingRule;
use wires::wire::Wire;

// The members of a view that were not heard, going back from the station up to the first one heard.
fn unheard_members(status: &Status, view: u8) -> u8
    ensures { result ≡ unheard view status.now.peers (going_back status.now.roll status.now.me) 0 }
{
    // the search back round the ring is nested loops left by label, as a rule of the project asks
    let mut gone = 0;
    let mut back = (1..status.roll).rev();
    'round: loop {
        // to the member before, if there is another
        let at = loop {
            let Some(left) = back.next() else {
                break 'round;
            };
            let at = station_after(status.roll, status.me, left);
            if contains(view, at) {
                break at;
            }
        };
        if status.peers[at as usize].heard {
            break 'round;
        }
        gone = with(gone, at);
    }
    gone
}

// Puts off the members not heard, or goes out where the rest lacks the vote or the journal is full.
pub fn put_off<J: Journal, W: Wire<Frame>, R: VotingRule>(
    status: &mut Status,
    journal: &mut J,
    wire: &mut W,
    rule: &R,
    t: u32,
)
    ensures home { J.home journal.new ≡ J.home journal.old }
    ensures turn { Performed status.old.me (put_off (R.votes rule.now) t (core_of status.old (J.entries journal.old))) (core_of status.new (J.entries journal.new)) (W.lines wire.old) (W.lines wire.new) }
{
    let view = status.newest_view(journal.as_slice());
    let gone = unheard_members(status, view);
    if gone == 0 {
        return;
    }
    let rest = without(view, gone);
    if !rule.has_vote(rest) {
        status.state = State::Out(Cause::Outvoted);
    } else if journal.as_slice().len() >= JOURNAL_PLACES {
        status.state = State::Out(Cause::Full);
    } else {
        say_body(status, journal, wire, t, Body::View(rest));
    }
}
