//! The messages of a tunnel's client.

ghost use Rattle.std.specs.Prelude.{◌≡◌, None, false, IfOk};

use crate::activity::SharedActivity;
use crate::client::{Client, SharedClient};
use crate::client_stream::ClientStream;
use std::alloc::{AllocError, Global};
use std::io::Write;
use std::marker::Model;
use std::sync::Arc;
use std::time::Clock;
use tungstenite::CloseCode;
use ws_tunnel::{HallFault, Message, Messages, WsMessages};

// What a client is told that asked for no tunnel.
const REFUSAL: &[u8] =
    b"HTTP/1.1 400 Bad Request\r\nContent-Length: 0\r\nConnection: close\r\n\r\n";

// With how many messages a tunnel begins: its key, and one that is passed on.
const OPENING: u8 = 2;

/// The messages of a tunnel's client, of which nothing is told. A client that doesn't send its key and one message in time fails.
#[derive(Drop)]
pub struct ClientHall<'a, R> {
    messages: WsMessages<ClientStream<'a, R>>,
    client: SharedClient,
    // How many messages were taken, as far as that is asked.
    taken: u8,
}

impl<'a, R> Model for ClientHall<'a, R> {
    ghost use Rattle.ws_tunnel.specs.Hall.{Hall};

    ghost Value = { Hall };

    ghost view = { λ s. s.messages };
}

// Tells a client that asked for no tunnel. What of that fails makes no difference any more.
fn refuse(client: &Client) {
    let mut stream = &client.stream;
    let _ = stream.write_all(REFUSAL);
}

impl<'a, R: Clock> ClientHall<'a, R> {
    /// Answers the handshake that a client begins. Where it fails the client is told, and each call for a message fails.
    pub fn accept(
        rt: &'a R,
        alloc: Global,
        client: SharedClient,
        activity: SharedActivity,
    ) -> Result<Self, AllocError>
        ensures { IfOk result (λ hall. hall
            ≡ record { faults = 0; ended = false; whole = None; left = None; put = None }) }
    {
        client.begin();
        let stream = ClientStream::new(rt, Arc::try_clone(&client)?, activity);
        let messages = WsMessages::accept(alloc, stream);

        // Whoever was answered nothing has no tunnel.
        if client.is_within() {
            refuse(&client);
        }
        Ok(ClientHall {
            messages,
            client,
            taken: 0,
        })
    }

    /// How many faults there were.
    pub fn faults(&self) -> u64
        ensures { result ≡ self.now.faults }
    {
        self.messages.faults()
    }

    /// Tells the client by a code why its tunnel ends, where it wasn't told yet, and gives it back.
    pub fn close(self, code: CloseCode) -> SharedClient {
        let ClientHall {
            messages,
            client,
            taken: _,
        } = self;
        let _ = messages.close(code);
        client
    }
}

impl<'a, R: Clock> Messages for ClientHall<'a, R> {
    ghost hall = { λ s. s };

    fn next(&mut self, alloc: Global) -> Result<Option<Message>, HallFault> {
        let next = self.messages.next(alloc);
        if matches!(&next, Ok(Some(_))) {
            self.taken = self.taken.saturating_add(1);
            if self.taken == OPENING {
                self.client.open();
            }
        }
        next
    }

    fn put(&mut self, alloc: Global, message: &Message) -> Result<(), HallFault> {
        self.messages.put(alloc, message)
    }
}
