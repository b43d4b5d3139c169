// Tests of who runs: of the hand-over, of workers beside one another, and of verdicts on an engine's own bytes, whoever judges. What else a
// run gives is proved, and shown by checks/cases.
#![tactic(auto)]

#[cfg(test)]
mod asserts;
#[cfg(test)]
mod desks;
#[cfg(test)]
mod drops;
#[cfg(test)]
mod gates;
#[cfg(test)]
mod handover;
#[cfg(test)]
mod judged;
#[cfg(test)]
mod plans;
#[cfg(test)]
mod progress;
#[cfg(test)]
mod races;
#[cfg(test)]
mod runs;
#[cfg(test)]
mod stops;
