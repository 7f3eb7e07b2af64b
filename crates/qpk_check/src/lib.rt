//! A recorded connection, judged: what is wrong with it, by which rule of RFC 9204 or RFC 9114, and why that may be.
#![tactic(auto)]

mod causes;
pub mod check;
mod counts;
mod duties;
mod findings;
mod history;
mod judged;
mod keeping;
mod messages;
mod report;
