// The laws over ladders.
ghost use Rattle.model.specs.LadderLaws.{FullSpeedTakesTheWork, TimesNeverRise, TimesAreTheLeast, FloorsExistWhereWorkFits, FloorsPartTheLevels, SoundSpeedsMakeALadder, RefusalsNameTheFirstBadLevel};

// The time at full speed is the work itself.
pub fn full_speed_takes_the_work()
    ensures { FullSpeedTakesTheWork }
{}

// Times never rise with the level.
pub fn times_never_rise()
    ensures { TimesNeverRise }
{}

// A time is the least number of ticks in which the speed does the work: it is rounded up once.
pub fn times_are_the_least()
    ensures { TimesAreTheLeast }
{}

// A floor exists exactly where the work fits at full speed.
pub fn floors_exist_where_work_fits()
    ensures { FloorsExistWhereWorkFits }
{}

// Every level from the floor on takes at most the window, and none below it does.
pub fn floors_part_the_levels()
    ensures { FloorsPartTheLevels }
{}

// A ladder is made exactly of sound speeds that are not too many for its kind, and has these speeds.
pub fn sound_speeds_make_a_ladder()
    ensures { SoundSpeedsMakeALadder }
{}

// A refusal carries 0 where the count is 0 or too large, else the first bad level and one; the card allows that place for
// every kind of at most 64 levels.
pub fn refusals_name_the_first_bad_level()
    ensures { RefusalsNameTheFirstBadLevel }
{}
