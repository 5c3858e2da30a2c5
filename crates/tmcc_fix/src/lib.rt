//! Wrong bits of TMCC words restored (ARIB STD-B31 chapter 3).
//!
//! The bits B20 to B203 of a word are a codeword of the shortened (184,102) difference-set cyclic code. [`fix`] makes them
//! the codeword that differs from them in at most eight places, where there is one; no two are so near. It never changes B0
//! to B19. Of a word with more wrong bits than eight it makes another codeword where one is near, and else leaves it.
//!
//! The code of length 273 that the generator polynomial generates has 273 checks of 17 places, the cyclic shifts of one set
//! of residues modulo 273 whose 272 differences are all distinct. So the 17 checks that cover a place meet nowhere else, and
//! with at most eight wrong places a wrong bit has at least ten odd checks, and a right one at most eight: the majority tells
//! them apart. Places behind the last bit are 0.
//!
//! No call takes memory, and none fails for any 204 bits.
#![tactic(auto)]

mod answer;
mod checks;
mod correction;
mod laws;

pub use answer::Fixed;
pub use correction::fix;
pub use laws::{corrected_law, near_law};

#[cfg(test)]
mod tests;
