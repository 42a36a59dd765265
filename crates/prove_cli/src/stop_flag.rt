//! A flag that is set when the standard input ends.
use std::alloc::{AllocError, Global};
use std::io::{Input, Read, StdinLock};
use std::sync::Arc;
use std::sync::atomic::{AtomicBool, Ordering};
use std::thread;
use std::thread::Threads;

fn read_to_its_end<R: Input>(rt: &R) {
    let mut reader = rt.reader();
    let mut bytes = [0u8; 64];
    for _ in 0..u64::MAX {
        match reader.read(&mut bytes) {
            Ok(0) | Err(_) => return,
            Ok(_) => {}
        }
    }
}

/// Starts a thread that reads the standard input to its end and then sets `stop`. It is not joined:
/// it ends with the program.
pub(crate) fn stop_at_end_of_input<
    R: Input<Reader = StdinLock<'static>> + Threads + Copy + Send + 'static,
>(rt: R, stop: &Arc<AtomicBool, Global>) -> Result<(), AllocError> {
    let theirs = Arc::try_clone(stop)?;
    let _child = thread::spawn(&rt, move || {
        read_to_its_end(&rt);
        theirs.store(true, Ordering::SeqCst);
    })?;
    Ok(())
}
