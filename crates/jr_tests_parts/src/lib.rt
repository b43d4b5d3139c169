// Tests of what is drawn (words, the map, the draws of a pass, a round that is put in later), of engines, of the content of blocks
// and the verdicts on them, and of files as an engine.
#![tactic(auto)]

#[cfg(test)]
mod asserts;
#[cfg(test)]
mod deferred;
#[cfg(test)]
mod draws;
#[cfg(test)]
mod engines;
#[cfg(test)]
mod files;
#[cfg(test)]
mod header;
#[cfg(test)]
mod map;
#[cfg(test)]
mod plans;
#[cfg(test)]
mod words;
