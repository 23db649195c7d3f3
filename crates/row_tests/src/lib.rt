//! Tests of rows and of what is computed of them: values, encoded rows, tables, operators, whole plans.
#![tactic(auto)]

#[cfg(test)]
mod csv_tables_tests;
#[cfg(test)]
mod op_join_tests;
#[cfg(test)]
mod op_unary_tests;
#[cfg(test)]
mod plan_eval_tests;
#[cfg(test)]
mod row_core_tests;
#[cfg(test)]
mod row_view_tests;
