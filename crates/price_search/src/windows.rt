//! The starts that are left of each mode.
use schedule_prices::Barred;

/// The first and the last start left.
#[derive(Clone, Copy)]
pub(crate) struct StartWindow {
    pub(crate) first: u32,
    pub(crate) last: u32,
}

/// Returns `None` if no start is left.
pub(crate) fn window_of(
    barred: &Barred,
    activity: usize,
    mode: usize,
    latest: u32,
) -> Option<StartWindow> {
    let mut window: Option<StartWindow> = None;
    for start in 0..latest.saturating_add(1) {
        if !barred.is_barred(activity, mode, start) {
            window = match window {
                None => Some(StartWindow {
                    first: start,
                    last: start,
                }),
                Some(window) => Some(StartWindow {
                    first: window.first,
                    last: start,
                }),
            };
        }
    }
    window
}

/// Where an activity can start first, and end last.
#[derive(Clone, Copy)]
pub(crate) struct ActivitySpan {
    pub(crate) earliest: usize,
    pub(crate) latest_end: usize,
}

impl ActivitySpan {
    pub(crate) const NONE: ActivitySpan = ActivitySpan {
        earliest: usize::MAX,
        latest_end: 0,
    };

    pub(crate) fn widen(&mut self, first: usize, last_end: usize) {
        self.earliest = self.earliest.min(first);
        self.latest_end = self.latest_end.max(last_end);
    }
}
