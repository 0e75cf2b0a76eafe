// The law over runs.
ghost use Rattle.model.specs.RunLaws.{EveryRunKeeps};

// After every list of calls on a newly opened frame of an accepted plan, whatever they name, over every ladder and
// policy: nothing starts or ends late, the order is canonical, and the frame never stands still.
pub fn every_run_keeps()
    ensures { EveryRunKeeps }
{}
