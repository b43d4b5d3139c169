// Tests of a run's ledger: what is recorded while it goes on, and what is read of it. What is judged by it is proved, and shown by checks.
#![tactic(auto)]

#[cfg(test)]
mod asserts;
#[cfg(test)]
mod folders;
#[cfg(test)]
mod judged;
#[cfg(test)]
mod ledgers;
#[cfg(test)]
mod run_ledgers;
