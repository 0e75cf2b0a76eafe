ghost use Rattle.std.specs.Prelude.{◌+◌, ◌-◌, ◌*◌, ◌<◌, ◌≤◌};
ghost use Rattle.model.specs.Limits.{most_speed};

use crate::asked::InSteps;

// A ladder in even steps, at most 64 levels: level i has the lowest speed and i steps. No clause sees it as its list,
// since a copy gives back the step, and a list of one speed has lost it.
#[derive(Clone, Copy)]
pub struct Even {
    pub(crate) steps: InSteps,
    ghost some: { 1 ≤ steps.count },
    ghost few: { steps.count ≤ 64 },
    ghost least: { 1 ≤ steps.lowest },
    ghost most: { steps.lowest + (steps.count - 1) * steps.step ≤ most_speed },
    ghost rises: { 1 < steps.count → 1 ≤ steps.step },
}
