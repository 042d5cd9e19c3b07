//! Secrets from the system's randomness.

ghost use Rattle.std.specs.Prelude.{◌≡◌, None};

use host_base::{DrawFailed, Secrets};
use rand::TryCryptoRng;
use std::marker::Model;

/// Secrets from a generator that is fit for them, as the system's. What is to come isn't told.
#[derive(Drop)]
pub struct RngSecrets<R> {
    rng: R,
    faults: u64,
}

impl<R> Model for RngSecrets<R> {
    ghost use Rattle.std.specs.Prelude.{ℕ};

    ghost Value = { ℕ };

    ghost view = { λ secrets. secrets.faults };
}

impl<R: TryCryptoRng> RngSecrets<R> {
    /// Secrets from what the generator gives, with no fault yet.
    pub fn new(rng: R) -> Self
        ensures { result ≡ 0 }
    {
        RngSecrets { rng, faults: 0 }
    }

    /// How many faults there were.
    pub fn faults(&self) -> u64
        ensures { result ≡ self.now }
    {
        self.faults
    }
}

impl<R: TryCryptoRng> Secrets for RngSecrets<R> {
    ghost drawer = { λ faults. record { faults = faults; coming = None } };

    fn draw(&mut self) -> Result<[u8; 32], DrawFailed> {
        let mut secret = [0; 32];
        match self.rng.try_fill_bytes(&mut secret) {
            Ok(()) => Ok(secret),
            Err(_) => {
                self.faults = self.faults.saturating_add(1);
                Err(DrawFailed)
            }
        }
    }
}
