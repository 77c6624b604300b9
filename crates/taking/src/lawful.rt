// Which frames a station acts on.
ghost use Rattle.std.specs.Prelude.{◌≡◌, ◌≤◌};
ghost use Rattle.protocol.specs.Limits.{max_stations};
ghost use Rattle.journal.specs.Core.{other};
ghost use Rattle.taking.specs.Lawful.{in_range, end_in_range, body_lawful, lawful};

use protocol::entry::{Body, End};
use protocol::frame::Frame;
use protocol::limits::{JOURNAL_PLACES, LAST_TURN};
use vote::rule::VotingRule;

// Whether an entry can have that place and turn.
fn is_in_range(place: u16, turn: u32) -> bool
    ensures { result ≡ in_range place turn }
{
    (1..=JOURNAL_PLACES).contains(&usize::from(place)) && (1..=LAST_TURN).contains(&turn)
}

// Whether a journal can have that end.
fn is_end_in_range(end: End) -> bool
    ensures { result ≡ end_in_range end }
{
    end == (0, 0) || is_in_range(end.0, end.1)
}

// Whether s is another station of the roll.
pub fn is_other(me: u8, roll: u8, s: u8) -> bool
    ensures { result ≡ other me roll s }
{
    s < roll && s != me
}

// Whether a body is a note, or a view on the roll that has the vote.
fn is_body_lawful<R: VotingRule>(roll: u8, rule: &R, body: &Body) -> bool
    requires { roll ≤ max_stations }
    ensures { result ≡ body_lawful roll (R.votes rule.now) body.now }
{
    match body {
        Body::Note(_) => true,
        Body::View(mask) => u16::from(*mask) < (1u16 << roll) && rule.has_vote(*mask),
    }
}

// Whether a frame is one to act on; any other is ignored.
pub fn is_lawful<R: VotingRule>(me: u8, roll: u8, rule: &R, frame: &Frame) -> bool
    requires { roll ≤ max_stations }
    ensures { result ≡ lawful me roll (R.votes rule.now) frame.now }
{
    match frame {
        Frame::Entry { sender, entry, .. } => {
            is_other(me, roll, *sender)
                && is_in_range(entry.place, entry.turn)
                && is_body_lawful(roll, rule, &entry.body)
        }
        Frame::Heartbeat { sender, end } | Frame::Join { sender, end } => {
            is_other(me, roll, *sender) && is_end_in_range(*end)
        }
    }
}
