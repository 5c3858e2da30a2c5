//! Coded bits: the inner code.

use crate::bytes::placed_bytes;
use crate::scale::Scale;
use isdbt_base::NoMemory;
use std::alloc::Global;

/// The bits of bytes, the highest first, behind six zeros.
fn inner_inputs(alloc: Global, bytes: &[u8]) -> Result<Vec<u8>, NoMemory> {
    let mut bits = vec![in alloc; 0; 6]?;
    for byte in bytes {
        for power in [128, 64, 32, 16, 8, 4, 2, 1] {
            bits.push(*byte / power % 2)?;
        }
    }
    Ok(bits)
}

/// What is sent of a pattern of so many steps: the step, counted from 0, and whether its second output.
fn pattern(steps: usize) -> &'static [(usize, bool)] {
    match steps {
        1 => &[(0, false), (0, true)],
        2 => &[(0, false), (0, true), (1, true)],
        3 => &[(0, false), (0, true), (1, true), (2, false)],
        5 => &[
            (0, false),
            (0, true),
            (1, true),
            (2, false),
            (3, true),
            (4, false),
        ],
        _ => &[
            (0, false),
            (0, true),
            (1, true),
            (2, true),
            (3, true),
            (4, false),
            (5, true),
            (6, false),
        ],
    }
}

/// An output of an input and the six before it, the earliest first.
fn output(inputs: &[u8], is_second: bool) -> u8 {
    match inputs {
        [u6, u5, _u4, u3, u2, u1, u0] => {
            if is_second {
                u0 ^ u2 ^ u3 ^ u5 ^ u6
            } else {
                u0 ^ u1 ^ u2 ^ u3 ^ u6
            }
        }
        _ => 0,
    }
}

/// Adds the coded bits of a pattern whose first step is this one.
fn add_pattern(
    inputs: &[u8],
    step: usize,
    sent: &[(usize, bool)],
    coded: &mut Vec<u8>,
) -> Result<(), NoMemory> {
    for (of, is_second) in sent {
        let from = step.wrapping_add(*of);
        let seven = inputs.get(from..from.wrapping_add(7)).unwrap_or(&[]);
        coded.push(output(seven, *is_second))?;
    }
    Ok(())
}

/// The coded bits of inputs, behind whose first six stand so many patterns of so many steps. Fails only if memory runs out.
pub fn coded_bits(
    alloc: Global,
    inputs: &[u8],
    steps: usize,
    patterns: usize,
) -> Result<Vec<u8>, NoMemory> {
    let mut coded = Vec::new(alloc);
    let sent = pattern(steps);
    for number in 0..patterns {
        add_pattern(inputs, number.wrapping_mul(steps), sent, &mut coded)?;
    }
    Ok(coded)
}

/// The coded bits of a layer's packets.
pub fn layer_bits(alloc: Global, packets: &[u8], scale: &Scale) -> Result<Vec<u8>, NoMemory> {
    let places = placed_bytes(alloc, packets, scale.frame_packets())?;
    let inputs = inner_inputs(alloc, &places)?;
    let patterns = scale.frame_patterns().wrapping_mul(scale.frames);
    coded_bits(alloc, &inputs, scale.layer.steps, patterns)
}
