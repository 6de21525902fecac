// What both ends do alike with blocks, and the answers in words that they give alike.
use ends::refusal::Refusal;
use frame::form::BLOCK;
use std::test::Fail;

/// An end with its two stores.
pub trait End {
    fn submit(&mut self, channel: u8, block: &[u8]) -> Result<u32, Refusal>;

    fn collect(&mut self, channel: u8, buffer: &mut [u8]) -> Result<usize, Refusal>;

    fn counted(&self, channel: u8) -> Counted;
}

/// What an end and its stores count on a channel.
#[derive(Clone, Copy)]
pub struct Counted {
    pub submitted: u32,
    pub gone: u32,
    pub waiting: u32,
    pub out: usize,
    pub inn: usize,
}

/// Tells a refusal by its number. Nothing was sent.
pub(crate) fn tell_refused(told: &mut String, refusal: Refusal) -> Result<usize, Fail> {
    let number = refusal.number();
    write!(told, "refused {number}")?;
    Ok(0)
}

/// A block is submitted, and its number told.
pub(crate) fn submit<E: End>(
    told: &mut String,
    end: &mut E,
    channel: u8,
    block: &str,
) -> Result<usize, Fail> {
    let block = hex::decode(*told.allocator(), block.as_bytes())?;
    match end.submit(channel, block.as_slice()) {
        Ok(number) => {
            write!(told, "number {number}")?;
            Ok(0)
        }
        Err(refusal) => tell_refused(told, refusal),
    }
}

/// A block is collected and told.
pub(crate) fn collect<E: End>(told: &mut String, end: &mut E, channel: u8) -> Result<usize, Fail> {
    let mut buffer = [0; BLOCK];
    match end.collect(channel, &mut buffer) {
        Ok(len) => {
            let block = buffer.get(0..len).ok_or("no such length")?;
            let block = hex::encode_upper(*told.allocator(), block)?;
            write!(told, "block {block}")?;
            Ok(0)
        }
        Err(refusal) => tell_refused(told, refusal),
    }
}

/// What is counted on a channel is told.
pub(crate) fn count<E: End>(told: &mut String, end: &E, channel: u8) -> Result<usize, Fail> {
    let Counted {
        submitted,
        gone,
        waiting,
        out,
        inn,
    } = end.counted(channel);
    write!(
        told,
        "submitted {submitted}, gone {gone}, waiting {waiting}; out {out}, in {inn}"
    )?;
    Ok(0)
}
