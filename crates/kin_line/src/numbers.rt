//! Numbers as decimal texts.

ghost use Rattle.std.specs.Prelude.{◌≡◌, ◌^◌, ◌++◌, OnOk, OnErr};
ghost use Rattle.std.specs.Fmt.{decimal};
ghost use Rattle.kin_ids.specs.Texts.{number_of};

use itoa::Buffer;
use kin_ids::{Memory, read_decimal};

/// The number below 2^64 whose decimal text this is: no sign, no leading zero. Its cost is the text's length. It takes no memory.
pub fn read_u64(bytes: &[u8]) -> Option<u64>
    ensures { result ≡ number_of (2 ^ 64) bytes.now }
{
    read_decimal(bytes)
}

/// Appends the decimal text of a number, which `read_u64` reads back.
pub fn push_u64(out: &mut Vec<u8>, n: u64) -> Result<(), Memory>
    ensures ok { OnOk result (out.new.items ≡ out.old.items ++ decimal n) }
    ensures err { OnErr result (out.new.items ≡ out.old.items) }
{
    out.extend_from_slice(Buffer::new().format(n).as_bytes())?;
    Ok(())
}
