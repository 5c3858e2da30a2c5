//! Information as eight bytes.

ghost use Rattle.std.specs.Prelude.{◌≡◌};
ghost use Rattle.bts_info.specs.Fields.{FitsFields};
ghost use Rattle.bts_info.specs.Information.{information, fields_of};

use crate::info::Info;

/// The eight bytes of the information; `read` undoes it.
pub fn to_bytes(info: &Info) -> [u8; 8]
    ensures value { result ≡ information info.now }
    ensures inverse { fields_of result ≡ info.now }
{
    written(info)
}

fn written(info: &Info) -> [u8; 8]
    ensures value { result ≡ information info.now }
    ensures fits { FitsFields info.now }
{
    let flags = 32 * u8::from(info.reserved)
        + 16 * u8::from(info.buffer_reset)
        + 8 * u8::from(info.start_up)
        + 4 * u8::from(info.first)
        + 2 * u8::from(info.head)
        + u8::from(info.odd);
    let ends = 128 * u8::from(info.ac_invalid) + 32 * info.ac_effective;
    let counter = info.counter.to_be_bytes();
    let ac = info.ac.to_be_bytes();
    [
        64 * info.identifier + flags,
        16 * info.layer + info.countdown,
        ends + counter[0],
        counter[1],
        ac[0],
        ac[1],
        ac[2],
        ac[3],
    ]
}

/// The information of eight bytes, whatever they are; `to_bytes` undoes it.
pub fn read(bytes: &[u8; 8]) -> Info
    ensures value { result ≡ fields_of bytes.now }
    ensures inverse { information result ≡ bytes.now }
{
    fields(bytes)
}

fn fields(bytes: &[u8; 8]) -> Info
    ensures { result ≡ fields_of bytes.now }
{
    Info {
        identifier: bytes[0] / 64,
        reserved: bytes[0] / 32 % 2 == 1,
        buffer_reset: bytes[0] / 16 % 2 == 1,
        start_up: bytes[0] / 8 % 2 == 1,
        first: bytes[0] / 4 % 2 == 1,
        head: bytes[0] / 2 % 2 == 1,
        odd: bytes[0] % 2 == 1,
        layer: bytes[1] / 16,
        countdown: bytes[1] % 16,
        ac_invalid: bytes[2] / 128 == 1,
        ac_effective: bytes[2] / 32 % 4,
        counter: 256 * u16::from(bytes[2] % 32) + u16::from(bytes[3]),
        ac: u32::from_be_bytes([bytes[4], bytes[5], bytes[6], bytes[7]]),
    }
}
