// Worked steps.
ghost use Rattle.bus.specs.Sheets.{All};
ghost use Rattle.history.specs.Worked.{Agrees, jobs};

// What the written rules make of some small jobs.
pub fn worked_steps_agree()
    ensures { All Agrees jobs }
{}
