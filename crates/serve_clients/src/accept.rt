//! The threads that let clients in, one for each address.
use crate::client::Client;
use crate::conversation::Conversation;
use crate::listener::Socket;
use crate::service::{MAX_CLIENTS, Service};
use blocks::Refusal;
use client_socket::ClientStream;
use std::sync::{Arc, Wait};
use std::thread;
use std::time::{Clock, Duration};

/// How long a thread that lets clients in waits after a failure, in milliseconds.
const PAUSE_MS: u64 = 100;

/// Lets clients in at an address, until the server ends. A session gives each a thread.
pub(crate) fn accept_clients<R: Wait + Clock>(rt: &R, service: &Service, listener: &Socket) {
    for _ in rt.forever() {
        let accepted = listener.accept();
        if service.is_over() {
            break;
        }
        match accepted {
            Ok(stream) => {
                let _ = welcome(rt, service, stream);
            }
            Err(_) => thread::sleep(rt, Duration::from_millis(PAUSE_MS)),
        }
    }
}

// Has a client wait for a thread. If there are too many, it is closed.
fn welcome<R: Wait>(rt: &R, service: &Service, stream: ClientStream) -> Result<(), Refusal> {
    let number = service.client_number();
    let client = Arc::new(service.alloc, Client::new(service.alloc, number, stream))?;
    if service.enter() >= MAX_CLIENTS || client.prepare().is_err() {
        service.leave();
        return Ok(());
    }
    let conversation = Conversation::new(service, client);
    service.conversations.put(rt, conversation, service);
    Ok(())
}
