// Saying: the third step, for one note.
ghost use Rattle.std.specs.Prelude.{◌≡◌, false};
ghost use Rattle.journal.specs.Members.{member_core};
ghost use Rattle.turning.specs.Calls.{waiting, may_say, say_next};
ghost use Rattle.turning.specs.Played.{Played};

use super::Token;
use crate::outbox::Outbox;
use crate::post::say_body;
use journal::member::Member;
use journal::store::Journal;
use protocol::entry::Body;
use protocol::frame::Frame;
use protocol::limits::NOTE_ROOM;
use wires::wire::Wire;

// Whether a note may be said with the token.
fn may_say<J: Journal>(member: &Member<J>, token: &Token) -> bool
    ensures { result ≡ may_say token.now (member_core member.now) }
{
    member.status.state.is_running()
        && token.is_own(member)
        && 0 < token.left
        && member.journal.as_slice().len() < NOTE_ROOM
}

// Says the oldest note, or tells that none is due. The token is handed back in both cases, so the answer is a pair.
pub fn say<J: Journal, W: Wire<Frame>>(
    member: &mut Member<J>,
    outbox: &mut Outbox,
    wire: &mut W,
    token: Token,
) -> (Token, bool)
    ensures value { result ≡ (say_next token (waiting outbox.old) (member_core member.old)).0 }
    ensures outbox { waiting outbox.new ≡ (say_next token (waiting outbox.old) (member_core member.old)).1.0 }
    ensures turn { Played (say_next token (waiting outbox.old) (member_core member.old)).1.1 member.old member.new (W.lines wire.old) (W.lines wire.new) }
    ensures same { result.1 ≡ false → (member.new ≡ member.old) × (outbox.new ≡ outbox.old) × (wire.new ≡ wire.old) }
{
    if !may_say(member, &token) {
        return (token, false);
    }
    let Some(note) = outbox.next() else {
        return (token, false);
    };
    let Token {
        station,
        turn,
        left,
    } = token;
    say_body(
        &member.status,
        &mut member.journal,
        wire,
        turn,
        Body::Note(note),
    );
    (
        Token {
            station,
            turn,
            left: left - 1,
        },
        true,
    )
}
