//! A gate that holds clients until others have come to some place.
use std::sync::atomic::{AtomicBool, Ordering};
use std::thread;
use sve_serve::{Gate, Point};

/// How often a client that is held looks whether it may go on.
const MOST_TURNS: u32 = 1_000_000_000;

/// A client that comes to one place is held there until somebody has come to another.
#[derive(Drop)]
pub struct Hold {
    held: Point,
    awaited: Point,
    is_reached: AtomicBool,
}

impl Hold {
    pub fn new(held: Point, awaited: Point) -> Hold {
        Hold {
            held,
            awaited,
            is_reached: AtomicBool::new(false),
        }
    }

    /// Waits until somebody has come to the awaited place, and tells whether it was so within the turns.
    fn is_released(&self) -> bool {
        for _ in 0..MOST_TURNS {
            if self.is_reached.load(Ordering::SeqCst) {
                return true;
            }
            thread::yield_now();
        }
        false
    }
}

/// A gate of some holds.
#[derive(Drop)]
pub struct Holding {
    holds: Vec<Hold>,
    was_late: AtomicBool,
}

impl Holding {
    pub fn new(holds: Vec<Hold>) -> Holding {
        Holding {
            holds,
            was_late: AtomicBool::new(false),
        }
    }

    /// Whether a client was held for as long as it could be.
    pub fn was_late(&self) -> bool {
        self.was_late.load(Ordering::SeqCst)
    }

    /// Lets go on whoever waits for this place.
    fn release(&self, point: Point) {
        for hold in &self.holds {
            if hold.awaited == point {
                hold.is_reached.store(true, Ordering::SeqCst);
            }
        }
    }
}

impl Gate for Holding {
    fn at(&self, point: Point) {
        self.release(point);
        for hold in &self.holds {
            if hold.held == point && !hold.is_released() {
                self.was_late.store(true, Ordering::SeqCst);
            }
        }
    }
}
