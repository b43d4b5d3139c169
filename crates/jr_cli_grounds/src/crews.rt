// What the engines of a crew are made with, one for each worker.
use jr_cli_words::CliFault;
use jr_engines::SharedMemory;
use jr_plan::Plan;
use std::alloc::Global;
use std::sync::Wait;

/// Boxes it.
pub fn boxed<X: Drop>(alloc: Global, one: X) -> Result<Box<X>, CliFault> {
    match Box::new(alloc, one) {
        Ok(made) => Ok(made),
        Err(_) => Err(CliFault::Memory),
    }
}

/// Puts it after the last one.
pub fn add<X: Drop>(all: &mut Vec<X>, one: X) -> Result<(), CliFault> {
    match all.push(one) {
        Ok(()) => Ok(()),
        Err(_) => Err(CliFault::Memory),
    }
}

/// The shares of one memory for the plan's files, one for each worker.
pub fn shares<R: Wait + Clone + Drop>(
    rt: R,
    alloc: Global,
    plan: &Plan,
    workers: u32,
) -> Result<Vec<SharedMemory<R>>, CliFault> {
    let first = SharedMemory::new(rt, alloc, plan)?;
    let mut shares = Vec::new(alloc);
    for _ in 1..workers {
        add(&mut shares, first.share()?)?;
    }
    add(&mut shares, first)?;
    Ok(shares)
}
