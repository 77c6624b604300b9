// What holds of any wire, shown by calls on one: proved from what every wire promises, and nothing else.
#![tactic(auto)]

ghost use Rattle.std.specs.Prelude.{◌≡◌, ◌<◌, ◌≤◌, false, [], length, is_some, is_ok, Some, Ok, Err, ◌≢◌, nat_lt};
ghost use Rattle.queue.specs.Contents.{oldest};
ghost use Rattle.wires.specs.Calls.{answer, posted, taken, cleared, posted_all};
ghost use Rattle.wire_laws.specs.Laws.{InOrder, post_and_take_answer, post_and_take_lines};

use protocol::refusal::Refusal;
use wires::wire::Wire;

// Posts one frame. The sender's own line stays as it is.
pub fn post_one<T: Copy, W: Wire<T>>(wire: &mut W, sender: u8, frame: T) -> Result<(), Refusal>
    ensures value { result ≡ answer (W.lines wire.old).roll sender tt }
    ensures after { W.lines wire.new ≡ posted (W.lines wire.old) sender frame }
    ensures same { (W.lines wire.old).roll ≤ sender → wire.new ≡ wire.old }
    ensures own { (W.lines wire.new).at sender ≡ (W.lines wire.old).at sender }
{
    wire.post(sender, frame)
}

// Posts some frames of one sender. The other stations get them in the order of posting.
pub fn post_all<T: Copy, W: Wire<T>>(wire: &mut W, sender: u8, frames: &[T]) -> Result<(), Refusal>
    ensures value { result ≡ answer (W.lines wire.old).roll sender tt }
    ensures after { W.lines wire.new ≡ posted_all (W.lines wire.old) sender frames.now }
    ensures same { (W.lines wire.old).roll ≤ sender → wire.new ≡ wire.old }
    ensures order { sender < (W.lines wire.old).roll → InOrder (W.lines wire.old) sender frames.now (W.lines wire.new) }
{
    wire.count(sender)?;
    for frame in frames {
        wire.post(sender, *frame)?;
    }
    Ok(())
}

// Counts a line, and then takes its oldest frame. The take answers none exactly if the count was 0.
pub fn count_and_take<T, W: Wire<T>>(
    wire: &mut W,
    station: u8,
) -> Result<(usize, Option<T>), Refusal>
    ensures value { result ≡ answer (W.lines wire.old).roll station (length ((W.lines wire.old).at station), oldest ((W.lines wire.old).at station)) }
    ensures after { W.lines wire.new ≡ taken (W.lines wire.old) station }
    ensures same { (W.lines wire.old).at station ≡ [] → wire.new ≡ wire.old }
    ensures honest { elim result [ Ok p ↦ is_some p.1 ≡ nat_lt 0 p.0 | Err _ ↦ (W.lines wire.old).roll ≤ station ] }
{
    let waiting = wire.count(station)?;
    Ok((waiting, wire.take(station)?))
}

// Takes frames until none is left, and answers how many there were: as many as the line's count was.
pub fn drain<T: Copy, W: Wire<T>>(wire: &mut W, station: u8) -> Result<usize, Refusal>
    ensures value { result ≡ answer (W.lines wire.old).roll station (length ((W.lines wire.old).at station)) }
    ensures after { W.lines wire.new ≡ cleared (W.lines wire.old) station }
    ensures same { (W.lines wire.old).at station ≡ [] → wire.new ≡ wire.old }
{
    // counted here: a wire is no iterator
    let mut frames = 0;
    while wire.take(station)?.is_some() {
        frames += 1;
    }
    Ok(frames)
}

// Posts a frame and takes at a station. Where that line was empty, the frame is what is taken.
pub fn post_and_take<T: Copy, W: Wire<T>>(
    wire: &mut W,
    sender: u8,
    station: u8,
    frame: T,
) -> Result<Option<T>, Refusal>
    ensures value { result ≡ post_and_take_answer (W.lines wire.old) sender station frame }
    ensures after { W.lines wire.new ≡ post_and_take_lines (W.lines wire.old) sender station frame }
    ensures same { is_ok result ≡ false → wire.new ≡ wire.old }
    ensures next { sender < (W.lines wire.old).roll → station < (W.lines wire.old).roll → (station ≢ sender) → (W.lines wire.old).at station ≡ [] → result ≡ Ok (Some frame) }
{
    wire.count(station)?;
    post_one(wire, sender, frame)?;
    wire.take(station)
}
