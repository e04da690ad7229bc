// How much of memory a step looks at and sets.
ghost use Rattle.bus.specs.Bound.{Bounded};
ghost use Rattle.execute.specs.Step.{one_step};

use processor::Cpu;

// A step fetches at most 300 times, and sets at most 256 bytes, in one run, each where the right to store was given.
pub fn step_is_bounded(cpu: Cpu)
    ensures { Bounded 300 (one_step cpu) }
{}
