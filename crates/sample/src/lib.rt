//! A sample of the whole chain: made inputs put into frames, coded, spoiled on their way, received and compared.
//!
//! [`sample`] runs it for a number, from which the inputs are made, and writes what it counts: how many input packets are
//! met by what is received in their place, how many received packets are marked, and the sum of the bytes of those that are
//! met. What it writes is computed from the definitions: of the generator, of the plan, of the multiplex, of the cells that
//! are sent, of those that are spoiled, and of what is received of them.
#![tactic(auto)]

mod buffers;
mod chain;
mod counting;
mod fault;
mod feeding;
mod generator;
mod inputs;
mod layer_counts;
mod lines;
mod multiplexing;
mod places;
mod plan;
mod running;
mod sampling;
mod spoiling;

pub use fault::SampleFault;
pub use sampling::sample;

#[cfg(test)]
mod tests;
