// Taking a frame: what a station does with it, by its own state and the kind of frame.
ghost use Rattle.std.specs.Prelude.{◌≡◌, ◌+◌, ◌≤◌, length};
ghost use Rattle.protocol.specs.Limits.{journal_places};
ghost use Rattle.journal.specs.Members.{member_core, Became, Followed};
ghost use Rattle.taking.specs.Lawful.{place_of};
ghost use Rattle.taking.specs.Take.{append, raise_match, heartbeat_running, join_running, after_running, after_joining, entry_running, entry_joining, filing, acts, received, taken};

use crate::filing::{Filing, filing_of};
use crate::lawful::is_lawful;
use books::book::Book;
use journal::member::Member;
use journal::peer::{hear, hear_all, keep_wish, raise};
use journal::reading::end_matches;
use journal::state::{Cause, State};
use journal::store::Journal;
use protocol::entry::{Body, End, Entry};
use protocol::frame::Frame;
use vote::mask::contains;
use vote::rule::VotingRule;

// Appends an entry, and raises the sender's known place to it.
// That the place fits stays a clause, here and below: a lawful frame has it, and a struct would be made for one call.
fn append<J: Journal>(member: &mut Member<J>, sender: u8, entry: &Entry)
    requires next { entry.now.place ≡ length (J.entries member.old.journal) + 1 }
    requires fits { entry.now.place ≤ journal_places }
    ensures { Became (append sender entry.now (member_core member.old)) member.old member.new }
{
    member.journal.push(*entry);
    raise(&mut member.status.peers, sender, entry.place);
}

// A running station that a view lacks goes out.
fn leave_if_put_off<J: Journal>(member: &mut Member<J>, body: &Body)
    ensures { Became (after_running body.now (member_core member.old)) member.old member.new }
{
    if let Body::View(mask) = body {
        if !contains(*mask, member.status.me) {
            member.status.state = State::Out(Cause::PutOff);
        }
    }
}

// A joining station that a view contains runs, all heard marks set.
fn run_if_let_in<J: Journal>(member: &mut Member<J>, body: &Body)
    ensures { Became (after_joining body.now (member_core member.old)) member.old member.new }
{
    if let Body::View(mask) = body {
        if contains(*mask, member.status.me) {
            member.status.state = State::Running;
            hear_all(&mut member.status.peers);
        }
    }
}

// An entry frame at a running station.
fn run_entry<J: Journal>(member: &mut Member<J>, sender: u8, entry: &Entry, before: u32)
    requires { entry.now.place ≤ journal_places }
    ensures { Became (entry_running (filing (J.entries member.old.journal) entry.now before) sender entry.now (member_core member.old)) member.old member.new }
{
    match filing_of(member.journal.as_slice(), entry, before) {
        Filing::Held => raise(&mut member.status.peers, sender, entry.place),
        Filing::Next => {
            append(member, sender, entry);
            leave_if_put_off(member, &entry.body);
        }
        Filing::Ahead => member.status.state = State::Out(Cause::Gap),
        Filing::Stray => {}
    }
}

// An entry frame at a joining station. A function of its own, since two of the four cases are not a running station's.
fn join_entry<J: Journal>(member: &mut Member<J>, sender: u8, entry: &Entry, before: u32)
    requires { entry.now.place ≤ journal_places }
    ensures { Became (entry_joining (filing (J.entries member.old.journal) entry.now before) sender entry.now (member_core member.old)) member.old member.new }
{
    match filing_of(member.journal.as_slice(), entry, before) {
        Filing::Held => raise(&mut member.status.peers, sender, entry.place),
        Filing::Next => {
            append(member, sender, entry);
            run_if_let_in(member, &entry.body);
        }
        Filing::Ahead | Filing::Stray => {}
    }
}

// A matching end raises the sender's known place.
fn raise_matching<J: Journal>(member: &mut Member<J>, sender: u8, end: End)
    ensures { Became (raise_match sender end (member_core member.old)) member.old member.new }
{
    if end_matches(member.journal.as_slice(), end) {
        raise(&mut member.status.peers, sender, end.0);
    }
}

// A heartbeat at a running station.
fn run_heartbeat<J: Journal>(member: &mut Member<J>, sender: u8, end: End)
    ensures { Became (heartbeat_running sender end (member_core member.old)) member.old member.new }
{
    let held = member.journal.as_slice();
    let length = held.len();
    let place = usize::from(end.0);
    if place > length {
        member.status.state = State::Out(Cause::Gap);
    } else if end_matches(held, end) {
        raise(&mut member.status.peers, sender, end.0);
        if place == length {
            hear(&mut member.status.peers, sender);
        }
    }
}

// A join frame at a running station.
fn run_join<J: Journal>(member: &mut Member<J>, sender: u8, end: End)
    ensures { Became (join_running sender end (member_core member.old)) member.old member.new }
{
    keep_wish(&mut member.status.peers, sender, end);
    raise_matching(member, sender, end);
}

// What a station does with a lawful frame, by its state and the kind of frame.
fn act<J: Journal>(member: &mut Member<J>, frame: &Frame)
    requires { place_of frame.now ≤ journal_places }
    ensures { Became (acts member.old.status.state frame.now (member_core member.old)) member.old member.new }
{
    // state and frame are matched as a pair, as the rules give them
    match (member.status.state, frame) {
        (
            State::Running,
            Frame::Entry {
                sender,
                entry,
                before,
            },
        ) => run_entry(member, *sender, entry, *before),
        (State::Running, Frame::Heartbeat { sender, end }) => run_heartbeat(member, *sender, *end),
        (State::Running, Frame::Join { sender, end }) => run_join(member, *sender, *end),
        (
            State::Joining,
            Frame::Entry {
                sender,
                entry,
                before,
            },
        ) => join_entry(member, *sender, entry, *before),
        (State::Joining, Frame::Heartbeat { sender, end }) => raise_matching(member, *sender, *end),
        (State::Joining, Frame::Join { .. }) | (State::Out(_), _) => {}
    }
}

// Acts on a frame if it is lawful, and ignores any other.
fn receive<J: Journal, R: VotingRule>(member: &mut Member<J>, rule: &R, frame: &Frame)
    ensures { Became (received (R.votes rule.now) frame.now (member_core member.old)) member.old member.new }
{
    if is_lawful(member.status.me, member.status.roll, rule, frame) {
        act(member, frame);
    }
}

// Takes a frame: acts on it if it is lawful, and works the firm count out again unless the station is out.
pub fn take<J: Journal, R: VotingRule, B: Book>(
    member: &mut Member<J>,
    book: &mut B,
    rule: &R,
    frame: &Frame,
)
    ensures member { Became (taken (R.votes rule.now) frame.now (member_core member.old)) member.old member.new }
    ensures book { Followed B.means B.next member.old member.new book.old book.new }
{
    receive(member, rule, frame);
    if !member.status.state.is_out() {
        member.settle(book);
    }
}
