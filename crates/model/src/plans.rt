// The laws over accepting a plan.
ghost use Rattle.model.specs.PlanLaws.{AcceptedPlansAreInTime, AcceptedPlansReadBack, PlanRefusalsAreOnTheCard, CellsAtTheLimitsSuffice, EveryTaskHasALine, LatestEndsAreInTime, AcceptedPlansHaveTimetables};

// A plan that is read is accepted, its bytes are those of its graph, and the cells suffice for it.
pub fn accepted_plans_are_in_time()
    ensures { AcceptedPlansAreInTime }
{}

// The bytes of an accepted graph read back to it, in cells that suffice for it.
pub fn accepted_plans_read_back()
    ensures { AcceptedPlansReadBack }
{}

// A refusal carries a place that the card allows.
pub fn plan_refusals_are_on_the_card()
    ensures { PlanRefusalsAreOnTheCard }
{}

// With as many cells as a plan may have tasks and cores, the deadline alone decides.
pub fn cells_at_the_limits_suffice()
    ensures { CellsAtTheLimitsSuffice }
{}

// There are as many line records as tasks.
pub fn every_task_has_a_line()
    ensures { EveryTaskHasALine }
{}

// No line record of an accepted plan ends after the deadline.
pub fn latest_ends_are_in_time()
    ensures { LatestEndsAreInTime }
{}

// The latest times of an accepted plan make a timetable of each segment, which fits what may follow.
pub fn accepted_plans_have_timetables()
    ensures { AcceptedPlansHaveTimetables }
{}
