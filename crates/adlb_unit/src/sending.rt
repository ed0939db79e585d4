//! That the values which move between threads may do so: each function here is proved by its types alone.

use crate::handles::Handle;
use crate::letters::{Letter, Sending};
use crate::payloads::Payload;
use crate::tokens::{AskedList, Token};
use crate::units::Unit;
use crate::wanted::Types;

fn needs_send<T: Send>(_: &T) {}

fn payload_is_send(payload: &Payload) {
    needs_send(payload)
}

fn unit_is_send(unit: &Unit) {
    needs_send(unit)
}

fn types_are_send(types: &Types) {
    needs_send(types)
}

fn handle_is_send(handle: &Handle) {
    needs_send(handle)
}

fn asked_list_is_send(asked: &AskedList) {
    needs_send(asked)
}

fn token_is_send(token: &Token) {
    needs_send(token)
}

fn letter_is_send(letter: &Letter) {
    needs_send(letter)
}

fn sending_is_send(sending: &Sending) {
    needs_send(sending)
}
