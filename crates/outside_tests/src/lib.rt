//! Tests of what no text of a program shows: files of the real folder, what is really written, shelves and sinks that fail,
//! and the stores and the graph below the machines and the analyses.
#![tactic(auto)]

#[cfg(test)]
mod graph_tests;
#[cfg(test)]
mod shelf_tests;
#[cfg(test)]
mod store_tests;
