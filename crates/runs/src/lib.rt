// What holds after every run of calls on a board.
#![tactic(auto)]

ghost use Rattle.runs.specs.Figures.{MarkedFigures};
ghost use Rattle.runs.specs.Promise.{EveryCallHasOneStep, EveryListOfCallsHasOneRun, EveryRunKeepsItsPromise, EverySweepEndsInTime};

// After every run of calls from a newly built board its placements are those of the windows as entered, and each answer kept its promise.
pub fn every_run_keeps_its_promise()
    ensures { EveryRunKeepsItsPromise }
{}

// Every call on every board has an answer and leaves a board, one of each only.
pub fn every_call_has_one_step()
    ensures { EveryCallHasOneStep }
{}

// Every list of calls on every board has a run, and one only, so that the promise speaks of every list of calls.
pub fn every_list_of_calls_has_one_run()
    ensures { EveryListOfCallsHasOneRun }
{}

// Every sweep ends after at most one round more than there are slots to spare at its start.
pub fn every_sweep_ends_in_time()
    ensures { EverySweepEndsInTime }
{}

// What the calls answer on some small boards.
pub fn marked_figures()
    ensures { MarkedFigures }
{}
