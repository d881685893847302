//! Tests of certificates, of the checker, of the simplex method and of what is decided.
#![tactic(auto)]

#[cfg(test)]
mod certificate_rows;
#[cfg(test)]
mod checker_rows;
#[cfg(test)]
mod decision_rows;
#[cfg(test)]
mod decisions;
#[cfg(test)]
mod formulas;
#[cfg(test)]
mod made_formulas;
#[cfg(test)]
mod making;
#[cfg(test)]
mod plan_rows;
#[cfg(test)]
mod solve_rows;
