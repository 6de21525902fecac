// What the programs at both ends hand over.
use crate::own::{FAREWELL, GREETING, REPLY};
use order::blocks::block;
use std::fmt;

/// What one submission carries.
#[derive(Clone, Copy)]
pub enum Cargo {
    /// The block of the order with that number, from 0.
    Block(usize),
    Farewell,
    Greeting,
    Reply,
}

impl Cargo {
    /// Its bytes, of that order.
    pub fn bytes(self, order: &[u8]) -> &[u8] {
        match self {
            Cargo::Block(number) => block(order, number).unwrap_or(&[]),
            Cargo::Farewell => FAREWELL.as_bytes(),
            Cargo::Greeting => GREETING.as_bytes(),
            Cargo::Reply => REPLY.as_bytes(),
        }
    }
}

impl fmt::Display for Cargo {
    fn fmt<W: fmt::Write>(&self, f: &mut fmt::Formatter<W>) -> fmt::Result {
        match self {
            Cargo::Block(number) => write!(f, "block {} of the order", number.saturating_add(1)),
            Cargo::Farewell => f.write_str("its farewell"),
            Cargo::Greeting => f.write_str("its greeting"),
            Cargo::Reply => f.write_str("its reply"),
        }
    }
}
