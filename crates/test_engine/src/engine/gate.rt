//! A gate of three workers, two of which meet there.

use crossbeam_utils::CachePadded;
use dbg_base::Gate;
use std::sync::atomic::{AtomicBool, Ordering};
use std::thread;

// How often a worker checks whether the other one has come.
const ROUNDS: u32 = 1_000_000;

// A flag for each worker.
#[derive(Drop)]
struct Flags([CachePadded<AtomicBool>; 3]);

impl Flags {
    fn new() -> Flags {
        Flags([
            CachePadded::new(AtomicBool::new(false)),
            CachePadded::new(AtomicBool::new(false)),
            CachePadded::new(AtomicBool::new(false)),
        ])
    }

    fn raise(&self, worker: u32) {
        if let Some(flag) = self.0.get(worker as usize) {
            flag.store(true, Ordering::SeqCst);
        }
    }

    fn all(&self) -> [bool; 3] {
        let [first, second, third] = &self.0;
        [
            first.load(Ordering::SeqCst),
            second.load(Ordering::SeqCst),
            third.load(Ordering::SeqCst),
        ]
    }

    // Whether the first two are raised within a bounded time.
    fn come_up(&self) -> bool {
        for _ in 0..ROUNDS {
            let [first, second, _] = self.all();
            if first && second {
                return true;
            }
            thread::yield_now();
        }
        false
    }
}

/// A gate that lets some of three workers start their first turn, and notes which of them ask and report. It holds each until the first two
/// have asked, and bars one that waits in vain. So a worker starts only if the first two run at the same time.
#[derive(Drop)]
pub struct MeetingGate {
    lets: [bool; 3],
    asked: Flags,
    reported: Flags,
}

impl MeetingGate {
    /// A gate to which no worker has come. It does not allocate.
    pub fn new(lets: [bool; 3]) -> MeetingGate {
        MeetingGate {
            lets,
            asked: Flags::new(),
            reported: Flags::new(),
        }
    }

    /// Which workers have asked.
    pub fn asked(&self) -> [bool; 3] {
        self.asked.all()
    }

    /// Which workers have reported.
    pub fn reported(&self) -> [bool; 3] {
        self.reported.all()
    }
}

impl Gate for MeetingGate {
    ghost may_bar = { λ gate worker turn. Unit {0} };

    fn may_start(&self, worker: u32, turn: u32) -> bool {
        if turn == 0 {
            self.asked.raise(worker);
        }
        self.asked.come_up() && self.lets.get(worker as usize).copied().unwrap_or(false)
    }

    fn answered(&self, worker: u32, turn: u32) {
        if turn == 0 {
            self.reported.raise(worker);
        }
    }
}
