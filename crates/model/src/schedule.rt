// The laws over canonical schedules and lengths.
ghost use Rattle.model.specs.ScheduleLaws.{EveryTaskStartsOnce, StartsNeverFall, PredecessorsEndFirst, FewerThanCoresEndLater, NoCoreIdlesWhileATaskIsReady, TheFirstReadyTaskStarts, ACoreRunsOneTaskAtATime, TheLengthIsTheLastEnd, SchedulesEnd, EveryExitFits, SomeExitFills, NoSegmentNeedsMore, NoShiftIsCutOff, NoLengthExceedsItsTasksInARow};

// The order of a segment has every task of it, nothing else, and none twice.
pub fn every_task_starts_once()
    ensures { EveryTaskStartsOnce }
{}

// Starts along the order never fall.
pub fn starts_never_fall()
    ensures { StartsNeverFall }
{}

// Every predecessor of a task comes earlier in the order, and ends at or before the task's start.
pub fn predecessors_end_first()
    ensures { PredecessorsEndFirst }
{}

// At each place of the order fewer of the earlier tasks than there are cores end after this task's start.
pub fn fewer_than_cores_end_later()
    ensures { FewerThanCoresEndLater }
{}

// No core is idle while a task is ready: from the end of its predecessors to its start as many tasks are under way as there are cores.
pub fn no_core_idles_while_a_task_is_ready()
    ensures { NoCoreIdlesWhileATaskIsReady }
{}

// Of two tasks, where the later one's predecessors started before the earlier one's start and ended by it, the earlier
// one has the larger worst, or the same and the lower number.
pub fn the_first_ready_task_starts()
    ensures { TheFirstReadyTaskStarts }
{}

// Every task runs on one of the cores, and a core runs one task at a time.
pub fn a_core_runs_one_task_at_a_time()
    ensures { ACoreRunsOneTaskAtATime }
{}

// No task ends after the length of its segment, and where there is a task one ends then.
pub fn the_length_is_the_last_end()
    ensures { TheLengthIsTheLastEnd }
{}

// After two events for each task nothing is left to happen.
pub fn schedules_end()
    ensures { SchedulesEnd }
{}

// A segment's length and the remaining length of any of its exits are at most its own remaining length.
pub fn every_exit_fits()
    ensures { EveryExitFits }
{}

// For some exit they are equal to it; a segment with no exits has its length remaining.
pub fn some_exit_fills()
    ensures { SomeExitFills }
{}

// No segment has more remaining than is needed.
pub fn no_segment_needs_more()
    ensures { NoSegmentNeedsMore }
{}

// Where the needed length is within the deadline, no shift is cut off at 0.
pub fn no_shift_is_cut_off()
    ensures { NoShiftIsCutOff }
{}

// No segment has more remaining than all tasks of the graph would take in a row, each of the largest worst that a task may have.
pub fn no_length_exceeds_its_tasks_in_a_row()
    ensures { NoLengthExceedsItsTasksInARow }
{}
