//! The checksum of bytes: CRC-32.
ghost use Rattle.std.specs.Prelude.{◌≡◌, ◌^◌};
ghost use Rattle.bus_page.specs.Checksums as definition;

/// The polynomial, without its highest power and with the others from the lowest bit on.
const POLYNOMIAL: u32 = 0xEDB8_8320;

/// The register when a bit has fallen out.
fn shifted(register: u32) -> u32
    ensures { result ≡ definition.shifted register }
{
    if register % 2 == 1 {
        (register / 2) ^ POLYNOMIAL
    } else {
        register / 2
    }
}

/// The register behind a byte.
fn behind_byte(register: u32, byte: u8) -> u32
    ensures { result ≡ definition.behind_byte register byte }
{
    let mut register = register ^ u32::from(byte);
    for _bit in 0..8u32 {
        register = shifted(register);
    }
    register
}

/// The CRC-32 of bytes, as Ethernet, gzip and zip have it.
pub(crate) fn checksum(bytes: &[u8]) -> u32
    ensures { result ≡ definition.checksum bytes.now }
{
    let mut register = u32::MAX;
    for byte in bytes {
        register = behind_byte(register, *byte);
    }
    register ^ u32::MAX
}
