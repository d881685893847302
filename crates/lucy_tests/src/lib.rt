//! Tests of what no row of a table can say, over the public calls of all layers.
#![tactic(auto)]

#[cfg(test)]
mod answer_rows;
#[cfg(test)]
mod asking;
#[cfg(test)]
mod audit_rows;
#[cfg(test)]
mod clause_rows;
#[cfg(test)]
mod core_rows;
#[cfg(test)]
mod crossing_rows;
#[cfg(test)]
mod epoch_rows;
#[cfg(test)]
mod expr_rows;
#[cfg(test)]
mod formula_rows;
#[cfg(test)]
mod formulas;
#[cfg(test)]
mod fraction_rows;
#[cfg(test)]
mod io_rows;
#[cfg(test)]
mod lives;
#[cfg(test)]
mod making;
#[cfg(test)]
mod names_rows;
#[cfg(test)]
mod normal_rows;
#[cfg(test)]
mod parts;
#[cfg(test)]
mod refusal_rows;
#[cfg(test)]
mod replica_rows;
#[cfg(test)]
mod trial_rows;
#[cfg(test)]
mod value_rows;
