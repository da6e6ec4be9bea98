ghost use Rattle.std.specs.Prelude.{◌≡◌, ◌++◌, ◌<◌, OnOk, [], false, true};
ghost use Rattle.pef_ports.specs.Sent.{Sends};

use crate::ports::{Sink, StreamFault};
use std::marker::Model;

/// How many bytes wait before they are written together.
const PAGE: usize = 8192;

/// The bytes of an output that wait to be written.
#[derive(Drop)]
pub struct Page {
    bytes: [u8; PAGE],
    /// How many of them wait.
    len: usize,
}

impl Model for Page {
    ghost use Rattle.std.specs.Prelude.{◌≤◌, length, take};
    ghost use Rattle.pef_ports.specs.Sent.{Waiting};

    ghost Value = { Waiting };

    ghost view = { λ page. record { items = take page.len page.bytes } };

    ghost invariant = { λ page. page.len ≤ length page.bytes };
}

impl Page {
    /// Returns an empty page.
    pub fn new() -> Page
        ensures { result.items ≡ [] }
    {
        Page {
            bytes: [0; PAGE],
            len: 0,
        }
    }

    /// Returns the bytes that wait.
    pub fn as_slice(&self) -> &[u8]
        ensures { result.now ≡ self.now.items }
    {
        &self.bytes[..self.len]
    }

    /// Appends bytes, or none if there is no room for all of them. Returns whether they were appended.
    #[inline(always)]
    fn append(&mut self, bytes: &[u8]) -> bool
        ensures appended { result ≡ true → self.new.items ≡ self.old.items ++ bytes.now }
        ensures unchanged { result ≡ false → self.new.items ≡ self.old.items }
    {
        let len = self.len;
        if bytes.len() > PAGE - len {
            return false;
        }
        self.bytes[len..len + bytes.len()].copy_from_slice(bytes);
        self.len = len + bytes.len();
        true
    }

    /// Removes all bytes.
    fn clear(&mut self)
        ensures { self.new.items ≡ [] }
    {
        self.len = 0;
    }
}

/// Sends `bytes` after those that wait in the page.
#[inline(always)]
pub fn send<W: Sink>(out: &mut W, page: &mut Page, bytes: &[u8]) -> Result<(), StreamFault>
    ensures { Sends result (W.stream out.old) (W.stream out.new) page.old.items page.new.items bytes.now }
{
    if page.append(bytes) {
        return Ok(());
    }
    send_anew(out, page, bytes)
}

/// Sends `bytes` that the page has no room for: those that wait in the page are written first. Kept out of `send`: it is rare.
#[inline(never)]
fn send_anew<W: Sink>(out: &mut W, page: &mut Page, bytes: &[u8]) -> Result<(), StreamFault>
    ensures { Sends result (W.stream out.old) (W.stream out.new) page.old.items page.new.items bytes.now }
{
    flush(out, page)?;
    if page.append(bytes) {
        return Ok(());
    }
    write_all(out, bytes)
}

/// Writes the bytes that wait in the page, which is empty then.
pub fn flush<W: Sink>(out: &mut W, page: &mut Page) -> Result<(), StreamFault>
    ensures sends { Sends result (W.stream out.old) (W.stream out.new) page.old.items page.new.items [] }
    ensures empty { OnOk result (page.new.items ≡ []) }
{
    write_all(out, page.as_slice())?;
    page.clear();
    Ok(())
}

/// Writes all of `bytes`, without the page.
fn write_all<W: Sink>(out: &mut W, bytes: &[u8]) -> Result<(), StreamFault>
    ensures { Sends result (W.stream out.old) (W.stream out.new) [] [] bytes.now }
{
    let mut at = 0;
    while at < bytes.len() {
        let (_, rest) = bytes.split_at(at);
        at += out.write(rest)?;
    }
    Ok(())
}
