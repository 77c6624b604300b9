// Drives both wires through the same long list of calls and compares every answer. One kind of queue serves frames and notes.
#![tactic(auto)]

use lines::line_wire::LineWire;
use pool::place::Place;
use pool::pool_wire::PoolWire;
use protocol::frame::Frame;
use protocol::limits::{LINES_PLACES, MAX_STATIONS, POOL_PLACES};
use protocol::note::Note;
use queue::Queue;
use std::alloc::{AllocError, Global};
use std::io;
use wires::wire::Wire;

// more posts than a line has room for, and then calls of every kind
const POSTS: u32 = 40;

const CALLS: u32 = 600;

fn main(rt: HostRuntime) -> io::Result<()> {
    for roll in 1..=u32::from(MAX_STATIONS) {
        let alike = drive(rt.alloc(), roll)?;
        println!(rt; "roll={roll} alike={alike}")?;
    }
    let frames = in_order(&mut [Frame::IDLE; 4], &[beat(1, 1), beat(2, 2), beat(0, 3)]);
    println!(rt; "frames in order={frames}")?;
    let notes = in_order(&mut [Note::default(); 4], &[note(1), note(2), note(3)]);
    println!(rt; "notes in order={notes}")
}

// How many calls both wires of a roll answer alike; none where a wire is not made.
fn drive(heap: Global, roll: u32) -> Result<usize, AllocError> {
    let frames = vec![in heap; Frame::IDLE; LINES_PLACES]?;
    let Ok(mut lines) = LineWire::new(roll, frames) else {
        return Ok(0);
    };
    let place = Place {
        frame: Frame::IDLE,
        waits: 0,
    };
    let Ok(mut pool) = PoolWire::new(roll, vec![in heap; place; POOL_PLACES]?) else {
        return Ok(0);
    };
    let posts = (0..POSTS)
        .filter(|turn| posts_alike(&mut lines, &mut pool, 0, *turn))
        .count();
    let mut number = roll;
    let calls = (0..CALLS)
        .filter(|_| {
            number = next(number);
            answers_alike(&mut lines, &mut pool, number)
        })
        .count();
    Ok(posts + calls)
}

// One call, chosen by the number, on both wires. Some of the stations are off the roll.
fn answers_alike<A: Wire<Frame>, B: Wire<Frame>>(a: &mut A, b: &mut B, number: u32) -> bool {
    let station = (number / 65_536 % 9) as u8;
    match number / 1_024 % 16 {
        0..=7 => posts_alike(a, b, station, number),
        8..=12 => a.take(station) == b.take(station),
        13 => a.clear(station) == b.clear(station),
        _ => a.count(station) == b.count(station),
    }
}

fn posts_alike<A: Wire<Frame>, B: Wire<Frame>>(
    a: &mut A,
    b: &mut B,
    sender: u8,
    turn: u32,
) -> bool {
    let frame = beat(sender, turn);
    a.post(sender, frame) == b.post(sender, frame)
}

// The next of a row of numbers that looks like chance and is the same in each run.
fn next(number: u32) -> u32 {
    number.wrapping_mul(1_664_525).wrapping_add(1_013_904_223)
}

fn beat(sender: u8, turn: u32) -> Frame {
    Frame::Heartbeat {
        sender,
        end: (1, turn),
    }
}

fn note(a: u32) -> Note {
    Note {
        a,
        ..Note::default()
    }
}

// How many of the items come out of a queue as they went in.
fn in_order<T: Copy + PartialEq>(places: &mut [T], items: &[T]) -> usize {
    let mut queue = Queue::new();
    for item in items {
        queue.push(places, *item);
    }
    items
        .iter()
        .filter(|item| queue.pop(places) == Some(**item))
        .count()
}
