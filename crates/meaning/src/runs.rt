// What holds of every run.
ghost use Rattle.meaning.specs.Laws.{RoundsNeverGrow, WhileUnrolls, DoUnrolls, ForUnrolls, TerminatedNeverNormal, AcceptedEnds};
ghost use Rattle.meaning.specs.Standard.{HoistedNames, SwitchEvaluation, CaseBlocks};

// Does nothing when run: its contract is what holds of every run, for every host.
pub fn keep_run_laws()
    ensures rounds { RoundsNeverGrow }
    ensures while_again { WhileUnrolls }
    ensures do_again { DoUnrolls }
    ensures for_again { ForUnrolls }
    ensures terminated { TerminatedNeverNormal }
    ensures accepted { AcceptedEnds }
{}

// Does nothing when run: its contract says that hoisted names and the run of a Switch are those of ECMA-262.
pub fn keep_standard()
    ensures names { HoistedNames }
    ensures switch { SwitchEvaluation }
    ensures blocks { CaseBlocks }
{}
