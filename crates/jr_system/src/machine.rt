// The machine that a run works on.

use crate::show::Screen;
use std::alloc::AllocGlobal;
use std::fs::{File, Files};
use std::random::RandomSource;
use std::sync::Wait;
use std::thread::Threads;
use std::time::Clock;

/// What each run needs of it, whatever its engine: a screen, memory, a clock and threads.
pub trait Machine: Screen
    + AllocGlobal
    + Clock
    + Threads
    + Wait
    + Sync
    + Send
    + Clone
    + Drop
    + 'static {}

impl<
    R: Screen + AllocGlobal + Clock + Threads + Wait + Sync + Send + Clone + Drop + 'static,
> Machine for R {}

/// What the outputs of a run need of it: files, streams, and names that nobody can know before.
pub trait Outlet: Files<File = File> + Print + Screen + AllocGlobal + RandomSource {}

impl<R: Files<File = File> + Print + Screen + AllocGlobal + RandomSource> Outlet for R {}
