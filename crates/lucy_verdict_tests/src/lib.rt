//! Tests of verdicts on certificates: judged whole, piece by piece, and as they are written.
#![tactic(auto)]

#[cfg(test)]
mod front_rows;
#[cfg(test)]
mod judged_rows;
#[cfg(test)]
mod making;
#[cfg(test)]
mod written_rows;
