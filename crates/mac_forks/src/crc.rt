ghost use Rattle.std.specs.Prelude.{◌≡◌};
ghost use Rattle.mac_forks.specs.Crc.{crc_of, remainder_after, shifted};

/// Returns the CRC of some bytes: polynomial 1021 (hexadecimal), start 0, the high bit of a byte first.
#[tactic(auto, unfolding(crate::specs::Crc::crc_of))]
pub fn crc_16(bytes: &[u8]) -> u16
    ensures { result ≡ crc_of bytes.now }
{
    let mut crc = 0;
    for byte in bytes {
        crc = with_byte(crc, *byte);
    }
    crc
}

/// Returns the CRC of some bytes and one more, by the CRC of those bytes.
#[tactic(auto, unfolding(crate::specs::Crc::remainder_after))]
fn with_byte(crc: u16, byte: u8) -> u16
    ensures { result ≡ remainder_after crc byte }
{
    let mut rest = crc ^ (u16::from(byte) * 256);
    'bits: for _ in 0..8u8 {
        rest = shifted(rest);
    }
    rest
}

/// Returns what is left of 17 bits, the last of them 0, after a division by the polynomial.
#[tactic(auto, unfolding(crate::specs::Crc::shifted))]
fn shifted(bits: u16) -> u16
    ensures { result ≡ shifted bits }
{
    let moved = bits % 0x8000 * 2;
    if bits < 0x8000 { moved } else { moved ^ 0x1021 }
}
