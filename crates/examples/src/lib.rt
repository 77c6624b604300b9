// All worked examples of the rules as one group, directly about the definitions.
#![tactic(auto)]

ghost use Rattle.examples.specs.Examples.{WorkedExamples};

use entry_laws::examples::book_examples;
use runs::examples::{calm_example, run_examples};
use station::examples::station_examples;
use vote::examples::vote_examples;

pub fn worked_examples()
    ensures { WorkedExamples }
{
    vote_examples();
    book_examples();
    station_examples();
    run_examples();
    calm_example();
}
