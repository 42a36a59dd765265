//! When workers rest, and when they end.
use farm_pool::Gate;
use std::cell::Cell;
use std::sync::{Condvar, Mutex, Wait};
use std::time::{Clock, Duration};

/// In milliseconds. A take that failed for want of memory is tried again after this rest.
const LONGEST_REST: u64 = 1000;

#[derive(Drop)]
struct SignalState {
    signals: u64,
    /// Connections that are still to come or to end.
    left: u64,
}

/// A `WorkSignal` is what sessions give when a job may wait. Workers that find no turn rest until it
/// is given, and end once no connection is left.
#[derive(Drop)]
pub(crate) struct WorkSignal {
    state: Mutex<SignalState>,
    changed: Condvar,
}

impl WorkSignal {
    pub(crate) fn new(connections: u64) -> WorkSignal {
        WorkSignal {
            state: Mutex::new(SignalState {
                signals: 0,
                left: connections,
            }),
            changed: Condvar::new(),
        }
    }

    pub(crate) fn notify<R: Wait>(&self, rt: &R) {
        let mut state = self.state.lock(rt);
        state.signals = state.signals.wrapping_add(1);
        drop(state);
        self.changed.notify_one();
    }

    /// `connections` have ended, or will not come.
    pub(crate) fn leave<R: Wait>(&self, rt: &R, connections: u64) {
        let mut state = self.state.lock(rt);
        state.left = state.left.saturating_sub(connections);
        drop(state);
        self.changed.notify_all();
    }
}

/// A `WorkerGate` is one worker's gate: the worker rests until the signal.
#[derive(Drop)]
pub(crate) struct WorkerGate<'a, R> {
    rt: &'a R,
    signal: &'a WorkSignal,
    /// The count of signals when the worker last looked.
    seen: Cell<u64>,
}

impl<'a, R> WorkerGate<'a, R> {
    pub(crate) fn new(rt: &'a R, signal: &'a WorkSignal) -> WorkerGate<'a, R> {
        WorkerGate {
            rt,
            signal,
            seen: Cell::new(0),
        }
    }
}

impl<'a, R: Wait + Clock> Gate for WorkerGate<'a, R> {
    fn before(&self, _tenant: u32, _seq: u64) {}

    fn after(&self, _tenant: u32, _seq: u64) {}

    fn idle(&self) -> bool {
        let state = self.signal.state.lock(self.rt);
        let seen = self.seen.get();
        let rest = Duration::from_millis(LONGEST_REST);
        let is_quiet = |state: &mut SignalState| state.left > 0 && state.signals == seen;
        let (state, _) = self
            .signal
            .changed
            .wait_timeout_while(self.rt, state, rest, is_quiet);
        self.seen.set(state.signals);
        state.left > 0
    }
}

/// A `StopWhenIdle` is a gate that lets no worker rest: work ends once there is no turn to take.
pub(crate) struct StopWhenIdle;

impl Gate for StopWhenIdle {
    fn before(&self, _tenant: u32, _seq: u64) {}

    fn after(&self, _tenant: u32, _seq: u64) {}

    fn idle(&self) -> bool {
        false
    }
}
