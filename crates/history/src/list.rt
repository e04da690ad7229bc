// Calls given as values, carried out one after another.
ghost use Rattle.std.specs.Prelude.{◌≡◌, ℕ, min, List, length, take, drop};
ghost use Rattle.session.specs.Calls.{opened, moment, state_at, Comes};
ghost use Rattle.history.specs.History.{setting_up, set_up, go_on as go_on_is, did_at, after, reached, phase_of, machine_of, point, lines_of, lent, lent_lines, ran_beside, given_calls, Follows, Recounts};
ghost use Rattle.history.specs.declared.call.Call.{Call as HistoryCall};

use super::call::{Call, Lines, Reply};
use board::Board;
use bus::{ReadLine, WriteLine};
use machine::{Answer, Machine, Questions};
use session::{Closed, Running, Setup};

// A session in any state.
// Why board and sheets as parameters of its calls: as with the session that runs, they are lent to each call anew.
#[derive(PartialEq, Eq, Debug, Drop)]
pub enum Session {
    Setup(Setup),
    Running(Running),
    Closed(Closed),
}

// A run beside the first lines of each sheet, or all of them where there are not so many.
fn run_beside<B: Board>(
    running: &mut Running,
    count: u32,
    lines: Lines,
    board: &mut B,
    reads: &mut [ReadLine],
    writes: &mut [WriteLine],
) -> Answer
    ensures { let found = moment B.Board.rights B.Board.bytes running.old.machine board.old reads.old writes.old in
        let left = moment B.Board.rights B.Board.bytes running.new.machine board.new reads.new writes.new in
        Comes (ran_beside (lent_lines (lines_of found) lines) count found) result found left }
{
    let m = lines.reads.min(reads.len());
    let n = lines.writes.min(writes.len());
    running.run(count, board, &mut reads[..m], &mut writes[..n])
}

// What a call comes to before the start.
fn set_up(mut setup: Setup, call: Call) -> (Session, Reply)
    ensures phase { phase_of result.0 ≡ (set_up call setup.machine).0 }
    ensures machine { machine_of result.0 ≡ (set_up call setup.machine).1 }
    ensures reply { result.1 ≡ (set_up call setup.machine).2 }
{
    match call {
        Call::Preset(n, value) => {
            let reply = setup.preset(n, value).into();
            (Session::Setup(setup), reply)
        }
        Call::Start(pc) => (Session::Running(setup.start(pc)), Reply::Accepted),
        Call::Step(_) | Call::Run(_, _) | Call::Close => {
            (Session::Setup(setup), Reply::OutOfPlace)
        }
    }
}

// What it comes to from the start on.
fn go_on<B: Board>(
    mut running: Running,
    call: Call,
    board: &mut B,
    reads: &mut [ReadLine],
    writes: &mut [WriteLine],
) -> (Session, Reply)
    ensures { let found = moment B.Board.rights B.Board.bytes running.machine board.old reads.old writes.old in
        let left = moment B.Board.rights B.Board.bytes (machine_of result.0) board.new reads.new writes.new in
        Follows (go_on_is found.rights (lent (lines_of found) call) (state_at found)) result.1 (phase_of result.0) found left }
{
    match call {
        Call::Step(lines) => {
            let answer = run_beside(&mut running, 1, lines, board, reads, writes);
            (Session::Running(running), Reply::Ran(answer))
        }
        Call::Run(count, lines) => {
            let answer = run_beside(&mut running, count, lines, board, reads, writes);
            (Session::Running(running), Reply::Ran(answer))
        }
        Call::Close => (Session::Closed(running.close()), Reply::Accepted),
        Call::Preset(_, _) | Call::Start(_) => (Session::Running(running), Reply::OutOfPlace),
    }
}

impl Session {
    // Opens a session.
    pub fn new() -> Session
        ensures phase { phase_of result ≡ setting_up }
        ensures machine { machine_of result ≡ opened }
    {
        Session::Setup(Setup::new())
    }

    // Carries out one call. One that is out of place does nothing.
    pub fn call<B: Board>(
        self,
        call: Call,
        board: &mut B,
        reads: &mut [ReadLine],
        writes: &mut [WriteLine],
    ) -> (Session, Reply)
        ensures { let found = moment B.Board.rights B.Board.bytes (machine_of self) board.old reads.old writes.old in
            let left = moment B.Board.rights B.Board.bytes (machine_of result.0) board.new reads.new writes.new in
            Follows (did_at found (phase_of self) call) result.1 (phase_of result.0) found left }
    {
        match self {
            Session::Setup(setup) => set_up(setup, call),
            Session::Running(running) => go_on(running, call, board, reads, writes),
            Session::Closed(closed) => (Session::Closed(closed), Reply::OutOfPlace),
        }
    }

    // Carries out a list of calls, as many as there is room for replies.
    pub fn carry_out<B: Board>(
        self,
        calls: &[Call],
        board: &mut B,
        reads: &mut [ReadLine],
        writes: &mut [WriteLine],
        replies: &mut [Reply],
    ) -> Session
        ensures follows { let found = moment B.Board.rights B.Board.bytes (machine_of self) board.old reads.old writes.old in
            let left = moment B.Board.rights B.Board.bytes (machine_of result) board.new reads.new writes.new in
            let count = min (length calls.now) (length replies.old) in
            Follows (after found.rights (given_calls count calls.now found) (point (phase_of self) found)) (take count replies.new) (phase_of result) found left }
        ensures rest { let count = min (length calls.now) (length replies.old) in
            drop count replies.new ≡ drop count replies.old }
        ensures recounts { let found = moment B.Board.rights B.Board.bytes (machine_of self) board.old reads.old writes.old in
            let left = moment B.Board.rights B.Board.bytes (machine_of result) board.new reads.new writes.new in
            let count = min (length calls.now) (length replies.old) in
            (f : ℕ → ℕ) (h : List HistoryCall) → reached found.rights f h ≡ point (phase_of self) found → Recounts found.rights f h (given_calls count calls.now found) (point (phase_of result) left) (take count replies.new) }
    {
        let mut session = self;
        let count = calls.len().min(replies.len());
        // Why an index for the replies: of a slice that a zip writes through, the prover knows no longer what it holds.
        for (i, call) in calls[..count].iter().enumerate() {
            let (next, reply) = session.call(*call, board, reads, writes);
            session = next;
            replies[i] = reply;
        }
        session
    }
}

impl Questions for Session {
    ghost holds = { λ s. machine_of s };

    fn machine(&self) -> Machine {
        match self {
            Session::Setup(setup) => setup.machine(),
            Session::Running(running) => running.machine(),
            Session::Closed(closed) => closed.machine(),
        }
    }
}
