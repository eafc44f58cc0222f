//! The tests of the libraries, in a crate of their own: a crate with tests is proved twice, once
//! without them and once with them.
#![tactic(auto)]

#[cfg(test)]
mod box_schedule_tests;
#[cfg(test)]
mod controller_core_tests;
#[cfg(test)]
mod machine_cases;
#[cfg(test)]
mod machine_examples;
#[cfg(test)]
mod outside_tests;
#[cfg(test)]
mod plan_tree_tests;
#[cfg(test)]
mod qs_const_tests;
#[cfg(test)]
mod qs_lexer_tests;
#[cfg(test)]
mod qs_machine_tests;
#[cfg(test)]
mod qs_tree_tests;
#[cfg(test)]
mod qs_values_tests;
#[cfg(test)]
mod timeline_board_tests;
