// What holds of every fold of a script.
ghost use Rattle.meaning.specs.FoldLaws.{FoldKeepsRules, StepKeepsRules, PassKeepsRules, SettleKeepsRules};
ghost use Rattle.meaning.specs.FoldLaws.{FoldKeepsRun, StepKeepsRun, PassKeepsRun, SettleKeepsRun};
ghost use Rattle.meaning.specs.FoldLaws.{FoldKeepsNames, StepKeepsNames, PassKeepsNames, SettleKeepsNames};
ghost use Rattle.meaning.specs.ChangeLaws.{FoldPays, StepPays, PassPays, SettlePays, SettleEnds, SettleUnique, SettledQuiet};
ghost use Rattle.meaning.specs.StepLaws.{PlacesCounted, PastPlaces, AlternateThere};

// Does nothing when run: its contract says that folding keeps the rules of a script, whatever labels are to be dropped.
pub fn keep_rules()
    ensures fold { FoldKeepsRules }
    ensures step { StepKeepsRules }
    ensures pass { PassKeepsRules }
    ensures settle { SettleKeepsRules }
{}

// Does nothing when run: its contract says that folding keeps the rules and the run, for every lawful host.
pub fn keep_run()
    ensures fold { FoldKeepsRun }
    ensures step { StepKeepsRun }
    ensures pass { PassKeepsRun }
    ensures settle { SettleKeepsRun }
{}

// Does nothing when run: its contract says that folding keeps hoisted names, but for granted ones.
pub fn keep_names()
    ensures fold { FoldKeepsNames }
    ensures step { StepKeepsNames }
    ensures pass { PassKeepsNames }
    ensures settle { SettleKeepsNames }
{}

// Does nothing when run: its contract says what changes cost, that settling ends, and that what has settled stays.
pub fn keep_changes()
    ensures fold { FoldPays }
    ensures step { StepPays }
    ensures pass { PassPays }
    ensures settle { SettlePays }
    ensures ends { SettleEnds }
    ensures unique { SettleUnique }
    ensures quiet { SettledQuiet }
{}

// Does nothing when run: its contract says that places are counted as the words have them, that a step past the last
// place folds nothing, and that a stub for an alternate that is not there never comes about.
pub fn keep_places()
    ensures counted { PlacesCounted }
    ensures past { PastPlaces }
    ensures alternate { AlternateThere }
{}
