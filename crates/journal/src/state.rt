// Whether a station runs, is joining, or is out.
ghost use Rattle.std.specs.Prelude.{◌≡◌};
ghost use Rattle.journal.specs.Core.{is_running, is_out};

// Why a station is out.
#[derive(Clone, Copy, PartialEq, Eq, Debug)]
pub enum Cause {
    // it was told to stop
    Stopped,
    // it missed an entry
    Gap,
    // a view lacks it
    PutOff,
    // the members that it hears lack the vote
    Outvoted,
    // its journal has no room for a view
    Full,
}

#[derive(Clone, Copy, PartialEq, Eq, Debug)]
pub enum State {
    Running,
    Joining,
    Out(Cause),
}

impl State {
    pub fn is_running(self) -> bool
        ensures { result ≡ is_running self }
    {
        matches!(self, State::Running)
    }

    pub fn is_out(self) -> bool
        ensures { result ≡ is_out self }
    {
        matches!(self, State::Out(_))
    }
}
