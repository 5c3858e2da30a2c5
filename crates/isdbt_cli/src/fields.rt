//! Numbers as texts, in decimal without sign or leading zero.

ghost use Rattle.std.specs.Prelude.{◌≡◌, ℕ, ◌<◌, ◌≤◌, ◌^◌, Some, IfSome, decimal};
ghost use Rattle.isdbt_cli.specs.CommandLines.{IsSampleNumber};
ghost use Rattle.isdbt_cli.specs.Parsing.{IsLater};

use itoa::Buffer;

/// The last frame of all.
pub const LAST_FRAME: u32 = 16_777_215;

/// The number that a text spells.
fn number_of(text: &str) -> Option<u32>
    ensures spelled { IfSome result (λ n. text.now ≡ decimal n) }
    ensures found { (n : ℕ) → n < 2 ^ 32 → text.now ≡ decimal n → result ≡ Some n }
{
    match text.parse::<u32>() {
        Ok(number) if Buffer::new().format(number) == text => Some(number),
        _ => None,
    }
}

/// The frame that a text spells, 1 to 16,777,215.
pub fn frame_of(text: &str) -> Option<u32>
    ensures spelled { IfSome result (λ n. IsLater 0 n × (text.now ≡ decimal n)) }
    ensures found { (n : ℕ) → IsLater 0 n → text.now ≡ decimal n → result ≡ Some n }
{
    match number_of(text) {
        Some(frame) if frame > 0 && frame <= LAST_FRAME => Some(frame),
        _ => None,
    }
}

/// The number of a sample that a text spells, 0 to 65,535.
pub fn sample_number_of(text: &str) -> Option<u16>
    ensures spelled { IfSome result (λ n. text.now ≡ decimal n) }
    ensures found { (n : ℕ) → IsSampleNumber n → text.now ≡ decimal n → result ≡ Some n }
{
    match number_of(text) {
        Some(number) if number <= 65_535 => Some(number as u16),
        _ => None,
    }
}
