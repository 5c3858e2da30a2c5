//! Tests of the commands over streams in memory, one command behind another. The crate holds no code of its own: a crate with
//! tests is proved twice, so the tests that cross crates stand here, over crates that are proved once.
#![tactic(auto)]

#[cfg(test)]
mod code_tests;
#[cfg(test)]
mod commands;
#[cfg(test)]
mod end_rows;
#[cfg(test)]
mod epoch_rows;
#[cfg(test)]
mod epoch_tests;
#[cfg(test)]
mod fix_tests;
#[cfg(test)]
mod head_rows;
#[cfg(test)]
mod head_tests;
#[cfg(test)]
mod hostile_tests;
#[cfg(test)]
mod model_rows;
#[cfg(test)]
mod model_tests;
#[cfg(test)]
mod partial_rows;
#[cfg(test)]
mod partial_tests;
#[cfg(test)]
mod placed;
#[cfg(test)]
mod plans;
#[cfg(test)]
mod receive_tests;
#[cfg(test)]
mod received_tests;
#[cfg(test)]
mod remux_tests;
#[cfg(test)]
mod show_bts_rows;
#[cfg(test)]
mod show_bts_tests;
#[cfg(test)]
mod show_cells_rows;
#[cfg(test)]
mod show_cells_tests;
#[cfg(test)]
mod streams;
#[cfg(test)]
mod switch_tests;
#[cfg(test)]
mod version_tests;
#[cfg(test)]
mod word_tests;
#[cfg(test)]
mod words;
