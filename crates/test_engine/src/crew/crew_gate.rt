//! Gates of crews.

use crossbeam_utils::CachePadded;
use dbg_base::Gate;
use std::sync::atomic::{AtomicBool, Ordering};
use std::thread;

// How often a worker checks whether what it waits for has come.
const ROUNDS: u32 = 1_000_000;

/// A gate that bars one worker from one turn.
#[derive(Drop)]
pub struct BarringGate {
    pub worker: u32,
    pub turn: u32,
}

impl Gate for BarringGate {
    ghost use Rattle.std.specs.Prelude.{◌≡◌};

    ghost may_bar = { λ gate worker turn. (worker ≡ gate.worker) × (turn ≡ gate.turn) };

    fn may_start(&self, worker: u32, turn: u32) -> bool {
        worker != self.worker || turn != self.turn
    }

    fn answered(&self, _worker: u32, _turn: u32) {}
}

// Something that happens once.
#[derive(Drop)]
struct Flag(CachePadded<AtomicBool>);

impl Flag {
    fn new() -> Flag {
        Flag(CachePadded::new(AtomicBool::new(false)))
    }

    fn raise(&self) {
        self.0.store(true, Ordering::SeqCst);
    }

    fn is_up(&self) -> bool {
        self.0.load(Ordering::SeqCst)
    }

    // Whether it is set within a bounded time.
    fn comes_up(&self) -> bool {
        for _ in 0..ROUNDS {
            if self.is_up() {
                return true;
            }
            thread::yield_now();
        }
        false
    }
}

/// A gate that holds the first turns of workers 0 and 1, each until the other one has asked for its own, and the second turn of worker 0
/// until worker 1 has ended its first. It bars a worker that waits in vain. So all continue only if both run at the same time.
#[derive(Drop)]
pub struct CrewGate {
    first: Flag,
    second: Flag,
    answered: Flag,
    // The turns that were allowed to start.
    passed: [Flag; 3],
}

impl CrewGate {
    /// A gate to which no worker has come. It does not allocate.
    pub fn new() -> CrewGate {
        CrewGate {
            first: Flag::new(),
            second: Flag::new(),
            answered: Flag::new(),
            passed: [Flag::new(), Flag::new(), Flag::new()],
        }
    }

    /// Whether the first turns of both were asked for, and allowed to start.
    pub fn two_met(&self) -> bool {
        let [one, two, _] = &self.passed;
        one.is_up() && two.is_up()
    }

    /// Whether each of the three turns was asked for, and allowed to start.
    pub fn all_passed(&self) -> bool {
        let [one, two, three] = &self.passed;
        one.is_up() && two.is_up() && three.is_up()
    }
}

// Notes that a worker may start.
fn pass(flag: &Flag, may: bool) -> bool {
    if may {
        flag.raise();
    }
    may
}

impl Gate for CrewGate {
    ghost may_bar = { λ gate worker turn. Unit {0} };

    fn may_start(&self, worker: u32, turn: u32) -> bool {
        let [one, two, three] = &self.passed;
        match (worker, turn) {
            (0, 0) => {
                self.first.raise();
                pass(one, self.second.comes_up())
            }
            (1, 0) => {
                self.second.raise();
                pass(two, self.first.comes_up())
            }
            (0, 1) => pass(three, self.answered.comes_up()),
            _ => true,
        }
    }

    fn answered(&self, worker: u32, turn: u32) {
        if worker == 1 && turn == 0 {
            self.answered.raise();
        }
    }
}
