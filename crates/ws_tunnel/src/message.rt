ghost use Rattle.std.specs.Prelude.{◌≡◌, length};
ghost use Rattle.ws_tunnel.specs.Hall.{bytes_of, is_text};

use host_base::Bytes;
use std::alloc::AllocError;

/// A message of a tunnel: a text, as its bytes, or bytes.
#[derive(Debug, Drop)]
pub enum Message {
    Text(Bytes),
    Binary(Bytes),
}

impl Message {
    /// The bytes of the message.
    pub fn as_slice(&self) -> &[u8]
        ensures { result.now ≡ bytes_of self.now }
    {
        match self {
            Message::Text(bytes) | Message::Binary(bytes) => bytes.as_slice(),
        }
    }

    /// How many bytes the message has.
    pub fn len(&self) -> usize
        ensures { result ≡ length (bytes_of self.now) }
    {
        match self {
            Message::Text(bytes) | Message::Binary(bytes) => bytes.len(),
        }
    }

    /// Whether the message is a text.
    pub fn is_text(&self) -> bool
        ensures { result ≡ is_text self.now }
    {
        matches!(self, Message::Text(_))
    }
}

impl Clone for Message {
    ghost is_clone = { λ message copy. copy ≡ message };

    fn clone(&self) -> Result<Message, AllocError> {
        match self {
            Message::Text(bytes) => Ok(Message::Text(bytes.clone()?)),
            Message::Binary(bytes) => Ok(Message::Binary(bytes.clone()?)),
        }
    }
}
