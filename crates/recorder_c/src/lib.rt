// The call that the recorder's own program, in C, makes. It answers a number, which C can take, and says again what the
// crate recorder says, since the kit lets no crate stand on a static library.
#![tactic(auto)]

ghost use Rattle.model.specs.Accepting.{plan_reading};
ghost use Rattle.model.specs.Limits.{most_cores, most_tasks};
ghost use Rattle.recorder.specs.Verdict.{Judged};

use std::alloc::Global;

// 0 for a plan that is accepted, or the number of its refusal; 255 where memory lacked.
#[unsafe(no_mangle)]
pub extern "C" fn bolgtun_judge(heap: Global, bytes: &[u8]) -> u32
    ensures { Judged result (plan_reading most_tasks most_cores bytes.now) }
{
    recorder::bolgtun_judge(heap, bytes)
}
