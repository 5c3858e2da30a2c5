//! When a call in memory fails because it was told to.

ghost use Rattle.std.specs.Prelude.{◌≤◌, ◌↔◌, IsTrue, IsSomeAnd};

/// Whether a call that finds so many bytes done is to fail from a byte.
pub fn is_due(from: Option<u64>, done: usize) -> bool
    ensures { IsTrue result ↔ IsSomeAnd from (λ byte. byte ≤ done) }
{
    from.is_some_and(|byte| byte <= done as u64)
}
