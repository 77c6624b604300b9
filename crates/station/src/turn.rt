// A whole turn by its calls.
ghost use Rattle.std.specs.Prelude.{◌≡◌, OnErr};
ghost use Rattle.journal.specs.Members.{member_core, Followed};
ghost use Rattle.turning.specs.Calls.{waiting};
ghost use Rattle.turning.specs.Whole.{turn_call};
ghost use Rattle.turning.specs.Played.{Played};

use books::book::Book;
use journal::member::Member;
use journal::store::Journal;
use protocol::frame::Frame;
use protocol::refusal::Refusal;
use turning::outbox::Outbox;
use turning::token::opening::open;
use turning::token::passing::pass;
use turning::token::saying::say;
use vote::rule::VotingRule;
use wires::wire::Wire;

// Opens turn t, says notes until none is due, and passes.
pub fn turn<J: Journal, W: Wire<Frame>, R: VotingRule, B: Book>(
    member: &mut Member<J>,
    outbox: &mut Outbox,
    book: &mut B,
    wire: &mut W,
    rule: &R,
    t: u32,
) -> Result<(), Refusal>
    ensures value { result ≡ (turn_call (R.votes rule.now) t (waiting outbox.old) (member_core member.old)).0 }
    ensures outbox { waiting outbox.new ≡ (turn_call (R.votes rule.now) t (waiting outbox.old) (member_core member.old)).1.0 }
    ensures turn { Played (turn_call (R.votes rule.now) t (waiting outbox.old) (member_core member.old)).1.1 member.old member.new (W.lines wire.old) (W.lines wire.new) }
    ensures book { Followed B.means B.next member.old member.new book.old book.new }
    ensures same { OnErr result ((member.new ≡ member.old) × (wire.new ≡ wire.old) × (outbox.new ≡ outbox.old) × (book.new ≡ book.old)) }
{
    let mut token = open(member, wire, rule, t)?;
    loop {
        let (back, more) = say(member, outbox, wire, token);
        token = back;
        if !more {
            break;
        }
    }
    pass(member, wire, book, token);
    Ok(())
}
