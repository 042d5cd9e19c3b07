ghost use Rattle.std.specs.Prelude.{◌≡◌, ◌≤◌, false, None, IsErrOf};
ghost use Rattle.host_base.specs.Outside.{Rose};

use crate::message::Message;
use crate::messages::{HallFault, Messages};
use host_base::Bytes;
use std::alloc::Global;
use std::io::{ErrorKind, Read, Write};
use std::marker::Model;
use std::str::from_utf8;
use tungstenite::{
    CloseCode, CloseFrame, Error, HandshakeError, Message as Frame, NoMask, Utf8Bytes, WebSocket,
    WebSocketConfig, accept,
};
use websocket::error::ProtocolError;

/// The longest message that is read, in bytes. At a longer one the tunnel fails, and the client is told by the close code 1009.
pub const MESSAGE_READ: usize = 4_194_304;

// How many pings and pongs are passed over in one call.
const PASSED_OVER: u32 = 1_000_000;

// How many bytes are asked of the stream at once.
const READ_ROOM: usize = 16_384;

/// A WebSocket over a stream, at its server's side, as the messages of a tunnel, of which nothing is told. Pings are answered and
/// passed over. Where a read of the stream would block, as a time limit makes it, the client is sent a ping, and the tunnel fails
/// where the next read comes to the same.
#[derive(Drop)]
pub struct WsMessages<S> {
    socket: Option<WebSocket<S, NoMask>>,
    broken: Option<HallFault>,
    ended: bool,
    faults: u64,
}

impl<S> Model for WsMessages<S> {
    ghost use Rattle.std.specs.Prelude.{None};
    ghost use Rattle.ws_tunnel.specs.Hall.{Hall};

    ghost Value = { Hall };

    ghost view = { λ s. record { faults = s.faults; ended = s.ended; whole = None; left = None; put = None } };
}

// What a frame carries to a tunnel: a message, or nothing.
fn message_of(alloc: Global, frame: &Frame) -> Result<Option<Message>, HallFault> {
    let (is_text, bytes) = match frame {
        Frame::Text(text) => (true, text.as_str().as_bytes()),
        Frame::Binary(bytes) => (false, bytes.as_slice()),
        Frame::Ping(_) | Frame::Pong(_) | Frame::Close(_) => return Ok(None),
    };
    match Bytes::copy_of(alloc, bytes) {
        Ok(bytes) if is_text => Ok(Some(Message::Text(bytes))),
        Ok(bytes) => Ok(Some(Message::Binary(bytes))),
        Err(_) => Err(HallFault::Memory),
    }
}

fn fault_of(error: &Error) -> HallFault {
    match error {
        Error::OutOfMemory => HallFault::Memory,
        _ => HallFault::Failed,
    }
}

// Whether the tunnel was closed in order.
fn is_closed(error: &Error) -> bool {
    matches!(error, Error::ConnectionClosed | Error::AlreadyClosed)
}

// Whether the time limit of a read passed.
fn is_late(error: &Error) -> bool {
    match error {
        Error::Io(cause) => cause.kind() == ErrorKind::WouldBlock,
        _ => false,
    }
}

// The code by which a client is told why its tunnel failed, where it can still be told.
fn code_of(error: &Error) -> Option<CloseCode> {
    match error {
        Error::Capacity(_) => Some(CloseCode::Size),
        Error::Utf8 => Some(CloseCode::Invalid),
        Error::Protocol(ProtocolError::ResetWithoutClosingHandshake) => None,
        Error::Protocol(_) => Some(CloseCode::Protocol),
        Error::Io(cause) if cause.kind() == ErrorKind::WouldBlock => Some(CloseCode::Away),
        _ => None,
    }
}

fn send_close<S: Read + Write + Drop>(socket: &mut WebSocket<S, NoMask>, code: CloseCode) {
    // The tunnel ends whether the client hears of it or not.
    let _ = socket.close(Some(CloseFrame {
        code,
        reason: Utf8Bytes::from_static(""),
    }));
}

fn ping<S: Read + Write + Drop>(
    alloc: Global,
    socket: &mut WebSocket<S, NoMask>,
) -> Result<(), HallFault> {
    let Ok(nothing) = tungstenite::Bytes::copy_from_slice(alloc, b"") else {
        return Err(HallFault::Memory);
    };
    match socket.send(Frame::Ping(nothing)) {
        Ok(()) => Ok(()),
        Err(error) => Err(fault_of(&error)),
    }
}

// The next message that comes, or none where the tunnel was closed.
fn read_next<S: Read + Write + Drop>(
    alloc: Global,
    socket: &mut WebSocket<S, NoMask>,
) -> Result<Option<Message>, HallFault> {
    let mut was_late = false;
    for _ in 0..PASSED_OVER {
        match socket.read() {
            Ok(frame) => {
                was_late = false;
                if let Some(message) = message_of(alloc, &frame)? {
                    return Ok(Some(message));
                }
            }
            Err(error) => {
                if is_closed(&error) {
                    return Ok(None);
                }
                if was_late || !is_late(&error) {
                    if let Some(code) = code_of(&error) {
                        send_close(socket, code);
                    }
                    return Err(fault_of(&error));
                }
                was_late = true;
                ping(alloc, socket)?;
            }
        }
    }
    Err(HallFault::Failed)
}

// Sends a message. One that is a text has to be UTF-8.
fn send<S: Read + Write + Drop>(
    alloc: Global,
    socket: &mut WebSocket<S, NoMask>,
    message: &Message,
) -> Result<(), HallFault> {
    let frame = match message {
        Message::Text(bytes) => match from_utf8(bytes.as_slice()) {
            Ok(text) => Frame::text(alloc, text),
            Err(_) => return Err(HallFault::Failed),
        },
        Message::Binary(bytes) => Frame::binary(alloc, bytes.as_slice()),
    };
    match frame {
        Ok(frame) => match socket.send(frame) {
            Ok(()) => Ok(()),
            Err(error) => Err(fault_of(&error)),
        },
        Err(_) => Err(HallFault::Memory),
    }
}

// Answers the handshake that a client begins.
fn shake_hands<S: Read + Write + Drop>(
    alloc: Global,
    stream: S,
) -> Result<WebSocket<S, NoMask>, Error> {
    match accept(alloc, stream) {
        Ok(mut socket) => {
            socket.set_config(
                WebSocketConfig::default()
                    .max_message_size(Some(MESSAGE_READ))
                    .max_frame_size(Some(MESSAGE_READ))
                    .read_buffer_size(READ_ROOM),
            );
            Ok(socket)
        }
        Err(HandshakeError::Failure(error)) => Err(error),
        Err(HandshakeError::Interrupted(_)) => Err(Error::HandshakeIncomplete),
    }
}

impl<S: Read + Write + Drop> WsMessages<S> {
    /// Answers the handshake that a client begins on the stream. Where it fails, for want of memory or otherwise, so does each call
    /// for a message.
    pub fn accept(alloc: Global, stream: S) -> Self
        ensures { result ≡ record { faults = 0; ended = false; whole = None; left = None; put = None } }
    {
        let (socket, broken) = match shake_hands(alloc, stream) {
            Ok(socket) => (Some(socket), None),
            Err(error) => (None, Some(fault_of(&error))),
        };
        WsMessages {
            socket,
            broken,
            ended: false,
            faults: 0,
        }
    }

    /// How many faults there were.
    pub fn faults(&self) -> u64
        ensures { result ≡ self.now.faults }
    {
        self.faults
    }

    /// Tells the client by a code why the tunnel ends, where it wasn't told yet, and gives the stream back, where the handshake was
    /// done.
    pub fn close(self, code: CloseCode) -> Option<S> {
        let WsMessages {
            socket,
            broken,
            ended,
            faults: _,
        } = self;
        match socket {
            None => None,
            Some(mut socket) => {
                if broken.is_none() && !ended {
                    send_close(&mut socket, code);
                }
                Some(socket.into_inner())
            }
        }
    }

    // Counts a fault, which each later call has too.
    fn fail(&mut self, fault: HallFault) -> HallFault
        ensures same { result ≡ fault }
        ensures counts { self.old.faults ≤ self.new.faults }
        ensures cause { fault ≡ HallFault.Failed → Rose self.old.faults self.new.faults }
        ensures stays { self.new ≡ record self.old { faults = self.new.faults } }
    {
        if fault == HallFault::Failed {
            self.faults = self.faults.saturating_add(1);
        }
        self.broken = Some(fault);
        fault
    }
}

impl<S: Read + Write + Drop> Messages for WsMessages<S> {
    ghost hall = { λ s. s };

    fn next(&mut self, alloc: Global) -> Result<Option<Message>, HallFault> {
        if self.ended {
            return Ok(None);
        }
        let read = match (self.broken, &mut self.socket) {
            (None, Some(socket)) => read_next(alloc, socket),
            (Some(fault), _) => Err(fault),
            (None, None) => Err(HallFault::Failed),
        };
        match read {
            Ok(next) => {
                self.ended = next.is_none();
                Ok(next)
            }
            Err(fault) => Err(self.fail(fault)),
        }
    }

    fn put(&mut self, alloc: Global, message: &Message) -> Result<(), HallFault> {
        let sent = match (self.broken, &mut self.socket) {
            (None, Some(socket)) => send(alloc, socket, message),
            (Some(fault), _) => Err(fault),
            (None, None) => Err(HallFault::Failed),
        };
        match sent {
            Ok(()) => Ok(()),
            Err(fault) => Err(self.fail(fault)),
        }
    }
}
