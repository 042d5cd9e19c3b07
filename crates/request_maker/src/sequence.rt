//! The sequence of numbers behind a seed, and the requests that it gives.

ghost use Rattle.std.specs.Prelude.{◌≡◌, ◌++◌, ◌<◌, OnOk, IfOk};
ghost use Rattle.request_maker.specs.Generated.{generated, request_from, successor};

use crate::kinds::put_request;
use host_base::{Bytes, Memory};
use std::alloc::Global;

// Knuth's multiplier and increment of a linear congruential generator of 64 bits.
const MULTIPLIER: u64 = 6_364_136_223_846_793_005;

const INCREMENT: u64 = 1_442_695_040_888_963_407;

fn successor(number: u64) -> u64
    ensures { result ≡ successor number }
{
    number.wrapping_mul(MULTIPLIER).wrapping_add(INCREMENT)
}

// Appends the request at a place of the sequence, whose number is this.
fn put_from(alloc: Global, text: &mut Bytes, place: u32, number: u64) -> Result<(), Memory>
    ensures { OnOk result (text.new ≡ text.old ++ request_from place number) }
{
    let upper = number >> 33;
    put_request(alloc, text, place, upper % 8, upper / 8)
}

/// The first `count` requests of a seed, one behind the other.
pub fn generate(alloc: Global, count: u32, seed: u64) -> Result<Vec<u8>, Memory>
    ensures { IfOk result (λ requests. requests.items ≡ generated count seed) }
{
    let mut text = Bytes::empty(alloc);
    let mut number = seed;
    for made in 0..count {
        number = successor(number);
        put_from(alloc, &mut text, made + 1, number)?;
    }
    Ok(text.into_vec())
}
