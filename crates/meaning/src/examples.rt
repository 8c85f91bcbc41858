// A lawful host, and runs and folds computed on it.
ghost use Rattle.host.specs.Model.{Lawful};
ghost use Rattle.meaning.specs.Witness.{witness};
ghost use Rattle.meaning.specs.Examples.{ExampleRuns, ExampleFolds};

// Does nothing when run: its contract says that a lawful host exists, and what some runs and folds come to on it.
pub fn keep_examples()
    ensures lawful { Lawful witness }
    ensures runs { ExampleRuns }
    ensures folds { ExampleFolds }
{}
