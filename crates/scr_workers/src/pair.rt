//! Two calls side by side.

ghost use Rattle.std.specs.Prelude.{◌≡◌, ◌+◌, ◌≤◌, max};

use std::thread::{Threads, join};

/// What two calls give. They are made side by side where there are two workers or more; with one worker they are made
/// one after the other, and no thread is started.
pub fn both<R: Threads, F: FnOnce() -> A + Send, G: FnOnce() -> B, A: Send, B>(
    rt: &R,
    workers: u32,
    first: F,
    second: G,
) -> (A, B)
    requires { F.pre first × G.pre second }
    ensures first { F.post first result.0 }
    ensures second { G.post second result.1 }
{
    if workers > 1 {
        return join(rt, first, second);
    }
    let front = first();
    let back = second();
    (front, back)
}

/// How many of 1 to 64 workers each of two calls side by side has: together all of them; one worker makes both.
pub fn shared(workers: u32) -> (u32, u32)
    requires { (1 ≤ workers) × (workers ≤ 64) }
    ensures first { (1 ≤ result.0) × (result.0 ≤ 64) }
    ensures second { (1 ≤ result.1) × (result.1 ≤ 64) }
    ensures together { result.0 + result.1 ≡ max 2 workers }
{
    ((workers / 2).max(1), workers.div_ceil(2))
}
