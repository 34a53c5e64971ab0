//! Records in the bytes of a batch, each after three bytes of its length.
ghost use Rattle.std.specs.Prelude.{◌≡◌, ◌<◌, ◌^◌, ◌++◌, take, length, vec_len, OnOk, OnErr};
ghost use Rattle.std.specs.Int.{w32, to_le_bytes};
ghost use Rattle.tb_sectors.specs.Records.{spelled, first_length};

use std::alloc::AllocError;

/// The first bytes of a journal's stream: its first batch.
pub const STREAM_BEGINS: [u8; 8] = *b"TBJRNL03";

/// Adds a record to the bytes of a batch. At an `Err` they are as they were.
pub fn push_record(bytes: &mut Vec<u8>, content: &[u8]) -> Result<(), AllocError>
    requires { length content.now < 2 ^ 24 }
    ensures ok { OnOk result (bytes.new.items ≡ bytes.old.items ++ spelled content.now) }
    ensures err { OnErr result (bytes.new.items ≡ bytes.old.items) }
{
    let len = bytes.len();
    match add_parts(bytes, content) {
        Ok(()) => Ok(()),
        Err(error) => {
            bytes.truncate(len);
            Err(error)
        }
    }
}

// Adds the length of a record, and the record.
fn add_parts(bytes: &mut Vec<u8>, content: &[u8]) -> Result<(), AllocError>
    requires { length content.now < 2 ^ 24 }
    ensures ok { OnOk result (bytes.new.items ≡ bytes.old.items ++ spelled content.now) }
    ensures err { OnErr result (take (vec_len bytes.old) bytes.new.items ≡ bytes.old.items) }
{
    bytes.extend_from_slice(&size_of(content))?;
    bytes.extend_from_slice(content)
}

// A length in three bytes.
fn size_of(content: &[u8]) -> [u8; 3]
    requires { length content.now < 2 ^ 24 }
    ensures { result ≡ take 3 (to_le_bytes w32 (length content.now)) }
{
    let [a, b, c, _] = (content.len() as u32).to_le_bytes();
    [a, b, c]
}

/// How many bytes the first record of a stream has: it is after three bytes of its length. Nothing, if no whole record is there.
pub fn first_length(stream: &[u8]) -> Option<usize>
    ensures { result ≡ first_length stream.now }
{
    match stream {
        [a, b, c, rest @ ..] => {
            let count = u32::from_le_bytes([*a, *b, *c, 0]) as usize;
            if count <= rest.len() {
                Some(count)
            } else {
                None
            }
        }
        _ => None,
    }
}
