//! The made inputs of a sample.

ghost use Rattle.std.specs.Prelude.{◌≡◌, vec_items};
ghost use Rattle.isdbt_base.specs.declared.kinds.Layer.TheVariants.{A, B};
ghost use Rattle.sample.specs.SampleInputs.{sample_input};

use crate::generator::made_input;
use isdbt_base::NoMemory;
use std::alloc::Global;

/// Packets of the input of layer A.
pub const A_PACKETS: u32 = 100;

/// Packets of the input of layer B.
pub const B_PACKETS: u32 = 3000;

/// The inputs of layers A and B of the sample with a number, which is 0 to 65535.
#[derive(Drop)]
pub struct Inputs {
    number: u16,
    a: Vec<u8>,
    b: Vec<u8>,
    ghost a_made: { vec_items a ≡ sample_input number A },
    ghost b_made: { vec_items b ≡ sample_input number B },
}

impl Inputs {
    ghost use Rattle.std.specs.Prelude.{◌≡◌, IfOk};
    ghost use Rattle.isdbt_base.specs.declared.kinds.Layer.TheVariants.{A, B};
    ghost use Rattle.sample.specs.SampleInputs.{sample_input};
    ghost use Rattle.sample.specs.Inputs.{number_of};

    /// The inputs of a sample: 100 packets of layer A, whose generator begins with the number, and 3000 of layer B, whose
    /// generator begins with one more. Fails only if memory runs out.
    pub fn make(alloc: Global, number: u16) -> Result<Inputs, NoMemory>
        ensures { IfOk result (λ i. number_of i ≡ number) }
    {
        let a = made_input(alloc, u32::from(number), A_PACKETS)?;
        let b = made_input(alloc, u32::from(number) + 1, B_PACKETS)?;
        Ok(Inputs { number, a, b })
    }

    /// The input of layer A.
    pub fn a(&self) -> &[u8]
        ensures { result.now ≡ sample_input (number_of self.now) A }
    {
        &self.a
    }

    /// The input of layer B.
    pub fn b(&self) -> &[u8]
        ensures { result.now ≡ sample_input (number_of self.now) B }
    {
        &self.b
    }
}
