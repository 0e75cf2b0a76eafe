ghost use Rattle.std.specs.Prelude.{◌≡◌};
ghost use Rattle.model.specs.Accepting.{plan_reading};
ghost use Rattle.model.specs.Limits.{most_cores, most_tasks};
ghost use Rattle.recorder.specs.Verdict.{told, Judged};

use fault::Error;
use plan::Plan;
use std::alloc::Global;

// What is answered where memory lacked.
const NO_MEMORY: u32 = 255;

// The number that tells of a reading; a number stands for each refusal since the C interface hands back one.
fn tell(reading: &Result<Plan, Error>) -> u32
    ensures { result ≡ told reading.now }
{
    match reading {
        Ok(_) => 0,
        Err(Error::Refused(fault)) => u32::from(fault.kind.number()),
        Err(Error::OutOfMemory) => NO_MEMORY,
    }
}

// 0 for a plan that is accepted, or the number of its refusal; 255 where memory lacked.
pub fn bolgtun_judge(heap: Global, bytes: &[u8]) -> u32
    ensures { Judged result (plan_reading most_tasks most_cores bytes.now) }
{
    tell(&Plan::from_bytes(heap, bytes))
}
