//! What is found of files after the power was cut, as a page for a browser.
#![tactic(auto)]

mod pages;
mod rows;
mod status;
mod tables;

pub use pages::judgement_page;
