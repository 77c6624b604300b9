// Opening a turn: the first two steps.
ghost use Rattle.std.specs.Prelude.{◌≡◌, OnErr};
ghost use Rattle.journal.specs.Members.{member_core};
ghost use Rattle.turning.specs.Calls.{due, open_turn, open_call};
ghost use Rattle.turning.specs.Played.{Played};

use super::Token;
use crate::put_off::put_off;
use crate::serve::serve;
use crate::wish::wish_to_serve;
use journal::member::Member;
use journal::reading::last_turn;
use journal::store::Journal;
use protocol::frame::Frame;
use protocol::limits::{LAST_TURN, NOTES_PER_TURN};
use protocol::refusal::Refusal;
use vote::rule::VotingRule;
use wires::wire::Wire;

// Whether turn t is the station's own, and comes after its journal's last turn.
fn is_due<J: Journal>(member: &Member<J>, t: u32) -> bool
    ensures { result ≡ due t (member_core member.now) }
{
    (1..=LAST_TURN).contains(&t)
        && (t - 1) % u32::from(member.status.roll) == u32::from(member.status.me)
        && last_turn(member.journal.as_slice()) < t
}

// The first two steps of a turn; answers how many notes may be said then.
fn open_steps<J: Journal, W: Wire<Frame>, R: VotingRule>(
    member: &mut Member<J>,
    wire: &mut W,
    rule: &R,
    t: u32,
) -> u8
    ensures left { result ≡ (open_turn (R.votes rule.now) t (member_core member.old)).0 }
    ensures turn { Played (open_turn (R.votes rule.now) t (member_core member.old)).1 member.old member.new (W.lines wire.old) (W.lines wire.new) }
{
    if !member.status.state.is_running() {
        return 0;
    }
    put_off(&mut member.status, &mut member.journal, wire, rule, t);
    if !member.status.state.is_running() {
        return 0;
    }
    let Some((station, place)) = wish_to_serve(&member.status, member.journal.as_slice()) else {
        return NOTES_PER_TURN;
    };
    serve(&member.status, &mut member.journal, wire, t, station, place);
    0
}

// Opens turn t, unless it is not due.
pub fn open<J: Journal, W: Wire<Frame>, R: VotingRule>(
    member: &mut Member<J>,
    wire: &mut W,
    rule: &R,
    t: u32,
) -> Result<Token, Refusal>
    ensures value { result ≡ (open_call (R.votes rule.now) t (member_core member.old)).0 }
    ensures turn { Played (open_call (R.votes rule.now) t (member_core member.old)).1 member.old member.new (W.lines wire.old) (W.lines wire.new) }
    ensures same { OnErr result ((member.new ≡ member.old) × (wire.new ≡ wire.old)) }
{
    if !is_due(member, t) {
        return Err(Refusal::WrongTurn);
    }
    let left = open_steps(member, wire, rule, t);
    Ok(Token {
        station: member.status.me,
        turn: t,
        left,
    })
}
