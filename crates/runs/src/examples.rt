// Worked examples of runs.
ghost use Rattle.runs.specs.Examples.{RunExamples, CalmExample};

// What two short runs come to.
pub fn run_examples()
    ensures { RunExamples }
{}

// A calm run with a stop, in which entries become firm.
pub fn calm_example()
    ensures { CalmExample }
{}
