// How much of memory the decoder looks at.
ghost use Rattle.bus.specs.Bound.{Reads};
ghost use Rattle.instruction.specs.Formats.{decode};

// An instruction's code is fetched with at most 22 fetches, and nothing is set.
pub fn fetches_at_most_22(pc: u32)
    ensures { Reads 22 (decode pc) }
{}
