// Passing: the fourth step, or the join frame.
ghost use Rattle.std.specs.Prelude.{◌≡◌};
ghost use Rattle.journal.specs.Members.{member_core, Followed};
ghost use Rattle.turning.specs.Calls.{pass_as, pass_turn};
ghost use Rattle.turning.specs.Played.{Played};

use super::Token;
use books::book::Book;
use journal::member::Member;
use journal::peer::clear_marks;
use journal::state::State;
use journal::store::Journal;
use protocol::frame::Frame;
use wires::wire::Wire;

// Ends a turn by the state: a heartbeat, a join frame, or nothing; then the firm count.
fn pass_on<J: Journal, W: Wire<Frame>, B: Book>(member: &mut Member<J>, wire: &mut W, book: &mut B)
    ensures turn { Played (pass_as member.old.status.state (member_core member.old)) member.old member.new (W.lines wire.old) (W.lines wire.new) }
    ensures journal { member.new.journal ≡ member.old.journal }
    ensures book { Followed B.means B.next member.old member.new book.old book.new }
{
    let sender = member.status.me;
    let end = member.end();
    match member.status.state {
        State::Running => {
            let _ = wire.post(sender, Frame::Heartbeat { sender, end });
            clear_marks(&mut member.status.peers);
            member.settle(book);
        }
        State::Joining => {
            let _ = wire.post(sender, Frame::Join { sender, end });
            member.settle(book);
        }
        State::Out(_) => {}
    }
}

// Passes the token: ends the turn, if it is the station's own.
pub fn pass<J: Journal, W: Wire<Frame>, B: Book>(
    member: &mut Member<J>,
    wire: &mut W,
    book: &mut B,
    token: Token,
)
    ensures turn { Played (pass_turn token (member_core member.old)) member.old member.new (W.lines wire.old) (W.lines wire.new) }
    ensures journal { member.new.journal ≡ member.old.journal }
    ensures book { Followed B.means B.next member.old member.new book.old book.new }
{
    let own = token.is_own(member);
    // each field by its name: `..` would let the token go, which is not `Drop`
    let Token {
        station: _,
        turn: _,
        left: _,
    } = token;
    if own {
        pass_on(member, wire, book);
    }
}
