// The promises about runs of a ring.
ghost use Rattle.runs.specs.Promises.{Promises};

// Every run keeps every promise, for books whose states are B.
pub fn promises_hold<B>()
    ensures { Promises B }
{}
