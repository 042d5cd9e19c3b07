ghost use Rattle.std.specs.Prelude.{◌≡◌};
ghost use Rattle.bridge_headers.specs.Text.{user_id_text};

use host_base::AccountId;
use itoa::Buffer;
use sha2::{Digest, Sha256};

/// How a grain knows an account: the first 32 hexadecimal digits of the SHA-256 digest of `account:` and its number.
pub fn user_id(account: AccountId) -> [u8; 32]
    ensures { result ≡ user_id_text account }
{
    let mut buffer = Buffer::new();
    let mut hasher = Sha256::new();
    hasher.update(b"account:".as_slice());
    hasher.update(buffer.format(account.0).as_bytes());
    let digest = hasher.finalize();
    let mut digits = [0u8; 32];
    match hex::encode_to_slice(&digest[..16], &mut digits) {
        Ok(()) => digits,
        Err(_) => unreachable!(),
    }
}
