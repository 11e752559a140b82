//! The last requests at a client's ports.

use ring_client::{Client, Port};
use ring_session::Answer;

/// A port's last submit: its number, its refusal, the number of polls since, and the last answer.
pub type Told = (u64, Option<u8>, u64, Option<Answer>);

/// Returns whether the port has this last submit.
fn tells<P: Port>(port: &P, want: &Told) -> bool {
    let asked = port.asked();
    (asked.number, asked.refused, asked.polls, asked.answer) == *want
}

/// Returns whether the client's ports have these last submits.
pub fn tell<P: Port>(client: &Client<P>, want: &[Told]) -> bool {
    let mut tell = client.ports().len() == want.len();
    for (port, want) in client.ports().iter().zip(want) {
        tell = tell && tells(port, want);
    }
    tell
}
