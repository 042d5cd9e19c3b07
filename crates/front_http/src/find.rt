//! Where the head of a request ends.
ghost use Rattle.std.specs.Prelude.{◌≡◌, ◌≤◌, length, take, drop};
ghost use Rattle.front_http.specs.Stream.{head_length};
ghost use Rattle.front_http.specs.Pending.{HasNoEndBefore};

/// The longest head, in bytes.
pub const HEAD_LIMIT: usize = 16_384;

/// The bytes in which a head has to end.
pub fn head_run(bytes: &[u8]) -> &[u8]
    ensures { result.now ≡ take 16384 bytes.now }
{
    &bytes[..HEAD_LIMIT.min(bytes.len())]
}

/// What stands behind the first bytes.
pub fn behind(bytes: &[u8], count: usize) -> &[u8]
    requires { count ≤ length bytes.now }
    ensures { result.now ≡ drop count bytes.now }
{
    bytes.split_at(count).1
}

/// How long the shortest run is that ends with CR LF CR LF, where none stands at the first `from` places.
pub fn find_head(bytes: &[u8], from: usize) -> Option<usize>
    requires { HasNoEndBefore from bytes.now }
    ensures { result ≡ head_length bytes.now }
{
    for at in from..bytes.len().saturating_sub(3) {
        if behind(bytes, at).starts_with(b"\r\n\r\n") {
            return Some(at + 4);
        }
    }
    None
}
