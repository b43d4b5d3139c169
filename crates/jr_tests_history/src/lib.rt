// Tests of what is kept of a run, and of the definitions as a plain program: what flies, what is intact, what a history says, and
// the check of a trace.
#![tactic(auto)]

#[cfg(test)]
mod asserts;
#[cfg(test)]
mod flight;
#[cfg(test)]
mod history;
#[cfg(test)]
mod laws;
#[cfg(test)]
mod passes;
#[cfg(test)]
mod plans;
#[cfg(test)]
mod replay;
#[cfg(test)]
mod tallies;
#[cfg(test)]
mod tickets;
#[cfg(test)]
mod traces;
#[cfg(test)]
mod writes;
