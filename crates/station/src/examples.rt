// Worked examples, as theorems about the rules.
ghost use Rattle.station.specs.Examples.{StationExamples};

pub fn station_examples()
    ensures { StationExamples }
{}
