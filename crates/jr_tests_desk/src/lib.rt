// Tests of the desk: lists of steps, what is refused, the laws, and the report and trace of a run.
#![tactic(auto)]

#[cfg(test)]
mod asserts;
#[cfg(test)]
mod board;
#[cfg(test)]
mod laws;
#[cfg(test)]
mod plain;
#[cfg(test)]
mod plans;
#[cfg(test)]
mod plays;
#[cfg(test)]
mod random;
#[cfg(test)]
mod refused;
#[cfg(test)]
mod report_laws;
#[cfg(test)]
mod stats;
