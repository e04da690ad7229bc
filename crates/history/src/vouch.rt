// The session statement, for whoever makes the calls one by one.
ghost use Rattle.std.specs.Prelude.{◌≡◌, ℕ, List};
ghost use Rattle.session.specs.Calls.{moment};
ghost use Rattle.history.specs.declared.call.Call.{Call};
ghost use Rattle.history.specs.History.{running, closed, point, reached, Stands};

use board::Board;
use bus::{ReadLine, WriteLine};
use session::{Closed, Running};

// The statement stands of every history that leads to where a running session stands.
pub fn running_vouched<B: Board>(
    session: &Running,
    board: &B,
    reads: &[ReadLine],
    writes: &[WriteLine],
)
    ensures { let found = moment B.Board.rights B.Board.bytes session.now.machine board.now reads.now writes.now in
        (f : ℕ → ℕ) (h : List Call) → reached found.rights f h ≡ point running found → Stands found.rights f h }
{}

// The statement stands of every history that leads to where a session stood when it was closed.
pub fn closed_vouched<B: Board>(
    session: &Closed,
    board: &B,
    reads: &[ReadLine],
    writes: &[WriteLine],
)
    ensures { let found = moment B.Board.rights B.Board.bytes session.now.machine board.now reads.now writes.now in
        (f : ℕ → ℕ) (h : List Call) → reached found.rights f h ≡ point closed found → Stands found.rights f h }
{}
