// What a wire is to its users: four calls, and the lines that they work on.
ghost use Rattle.std.specs.Prelude.{◌≡◌, ◌≤◌, [], length};
ghost use Rattle.queue.specs.Contents.{oldest};
ghost use Rattle.wires.specs.Lines.{Lines, Sound};
ghost use Rattle.wires.specs.Calls.{answer, posted, taken, cleared};

use protocol::refusal::Refusal;

// A wire keeps a line of frames for each station on its roll. A call that names a station off the roll changes nothing.
pub trait Wire<T> {
    // the roll's size, and each station's frames, oldest first
    ghost lines: { Self → Lines T };

    // Adds a frame to every line but the sender's. A full line loses it.
    fn post(&mut self, sender: u8, frame: T) -> Result<(), Refusal>
        ensures value { result ≡ answer (lines self.old).roll sender tt }
        ensures after { lines self.new ≡ posted (lines self.old) sender frame }
        ensures same { (lines self.old).roll ≤ sender → self.new ≡ self.old };

    // Removes the oldest frame of a line and answers it, or none. An empty line leaves the wire as it is, and so does a
    // station off the roll, whose line is empty.
    fn take(&mut self, station: u8) -> Result<Option<T>, Refusal>
        ensures value { result ≡ answer (lines self.old).roll station (oldest ((lines self.old).at station)) }
        ensures after { lines self.new ≡ taken (lines self.old) station }
        ensures same { (lines self.old).at station ≡ [] → self.new ≡ self.old };

    // Empties a line.
    fn clear(&mut self, station: u8) -> Result<(), Refusal>
        ensures value { result ≡ answer (lines self.old).roll station tt }
        ensures after { lines self.new ≡ cleared (lines self.old) station }
        ensures same { (lines self.old).roll ≤ station → self.new ≡ self.old };

    // How many frames wait in a line.
    fn count(&self, station: u8) -> Result<usize, Refusal>
        ensures { result ≡ answer (lines self.now).roll station (length ((lines self.now).at station)) };

    // 1 to 8 stations, at most 32 frames in a line, and none for a station off the roll
    ghost sound: { (w : Self) → Sound (lines w) };
}

// A wire that says how many stations its roll has.
pub trait Roll<T>: Wire<T> {
    // The number of stations on the roll.
    fn roll(&self) -> u8
        ensures { result ≡ (Self.Wire.lines self.now).roll };
}

// The station's place on a roll of so many, which both wires look up at the head of each call.
pub fn on_roll(roll: u8, station: u8) -> Result<usize, Refusal>
    ensures { result ≡ answer roll station station }
{
    if station < roll {
        Ok(station as usize)
    } else {
        Err(Refusal::NotOnRoll)
    }
}
