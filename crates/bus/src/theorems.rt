// What holds of every program of accesses, whatever it gives.
ghost use Rattle.bus.specs.Theorems.{Replays, Suffices};

// A run depends on nothing but the rights, the lines and the bytes at the listed addresses.
pub fn sheets_tell_all<T>()
    ensures { Replays T }
{}

// A bound on fetches and set bytes leaves room on the sheets.
pub fn bounds_suffice<T>()
    ensures { Suffices T }
{}
