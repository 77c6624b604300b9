// The turn of a station: by its three calls, and whole.
ghost use Rattle.std.specs.Prelude.{◌≡◌, false, OnErr};
ghost use Rattle.station.specs.Rules.{open_station, say_station, pass_station, turn_station, Acted};
ghost use Rattle.station.specs.Meaning.{core, model, Unchanged};

use super::Station;
use crate::turn::turn;
use books::book::Book;
use protocol::frame::Frame;
use protocol::refusal::Refusal;
use turning::token::Token;
use turning::token::opening::open;
use turning::token::passing::pass;
use turning::token::saying::say;
use vote::rule::VotingRule;
use wires::wire::Wire;

impl<B: Book> Station<B> {
    // Opens turn t: members that were not heard are put off, and a wish is served. Answers the turn's token.
    pub fn open<W: Wire<Frame>, R: VotingRule>(
        &mut self,
        wire: &mut W,
        rule: &R,
        t: u32,
    ) -> Result<Token, Refusal>
        ensures value { result ≡ (open_station (R.votes rule.now) t (model B.means self.old)).0 }
        ensures after { Acted (core self.old).me (open_station (R.votes rule.now) t (model B.means self.old)).1 (model B.means self.new) (W.Wire.lines wire.old) (W.Wire.lines wire.new) }
        ensures same { OnErr result (Unchanged self.old self.new × (wire.new ≡ wire.old)) }
    {
        open(&mut self.member, wire, rule, t)
    }

    // Says the oldest note, or tells that none is due. The token is used up and handed back.
    pub fn say<W: Wire<Frame>>(&mut self, wire: &mut W, token: Token) -> (Token, bool)
        ensures value { result ≡ (say_station token (model B.means self.old)).0 }
        ensures after { Acted (core self.old).me (say_station token (model B.means self.old)).1 (model B.means self.new) (W.Wire.lines wire.old) (W.Wire.lines wire.new) }
        ensures same { result.1 ≡ false → Unchanged self.old self.new × (wire.new ≡ wire.old) }
    {
        say(&mut self.member, &mut self.outbox, wire, token)
    }

    // Ends the turn, and the token with it.
    pub fn pass<W: Wire<Frame>>(&mut self, wire: &mut W, token: Token)
        ensures { Acted (core self.old).me (pass_station B.next token (model B.means self.old)) (model B.means self.new) (W.Wire.lines wire.old) (W.Wire.lines wire.new) }
    {
        pass(&mut self.member, wire, &mut self.book, token);
    }

    // A whole turn: opens it, says notes until none is due, and passes.
    pub fn turn<W: Wire<Frame>, R: VotingRule>(
        &mut self,
        wire: &mut W,
        rule: &R,
        t: u32,
    ) -> Result<(), Refusal>
        ensures value { result ≡ (turn_station B.next (R.votes rule.now) t (model B.means self.old)).0 }
        ensures after { Acted (core self.old).me (turn_station B.next (R.votes rule.now) t (model B.means self.old)).1 (model B.means self.new) (W.Wire.lines wire.old) (W.Wire.lines wire.new) }
        ensures same { OnErr result (Unchanged self.old self.new × (wire.new ≡ wire.old)) }
    {
        turn(
            &mut self.member,
            &mut self.outbox,
            &mut self.book,
            wire,
            rule,
            t,
        )
    }
}
