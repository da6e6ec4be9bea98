//! An output of the system whose writer takes one byte in each call. `cases/commands/ports.py` has real files and devices.
use pef_ports::Sink;
use pef_ports::system::Output;
use std::io::{self, Write};

/// Takes one byte in each call.
#[derive(Drop)]
struct Drip;

impl Write for Drip {
    fn write(&mut self, bytes: &[u8]) -> io::Result<usize> {
        Ok(bytes.len().min(1))
    }

    fn flush(&mut self) -> io::Result<()> {
        Ok(())
    }
}

#[test]
fn byte_a_call(rt: HostRuntime) {
    let text = b"two lines\nof text\n";
    let mut out = Output::new(Drip);
    for at in 0..text.len() {
        assert!(rt; out.write(&text[at..]) == Ok(1));
    }
    assert!(rt; out.write(b"") == Ok(0));
}
