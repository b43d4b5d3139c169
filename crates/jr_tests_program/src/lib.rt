// Tests of job texts and their plans, of the types of a run, and of the program over plain readers and writers: of what no run of the
// program shows. What it shows stands in checks/cases.
#![tactic(auto)]

#[cfg(test)]
mod asserts;
#[cfg(test)]
mod crew;
#[cfg(test)]
mod jobs;
#[cfg(test)]
mod model;
#[cfg(test)]
mod numbers;
#[cfg(test)]
mod options;
#[cfg(test)]
mod plans;
#[cfg(test)]
mod program;
#[cfg(test)]
mod reads;
#[cfg(test)]
mod replies;
#[cfg(test)]
mod sections;
#[cfg(test)]
mod settings;
#[cfg(test)]
mod sizes;
#[cfg(test)]
mod texts;
#[cfg(test)]
mod wiping;
#[cfg(test)]
mod words;
