//! Reading a whole file.

ghost use Rattle.std.specs.Prelude.{◌≡◌, ◌<◌, ◌≤◌, ℕ, List, length, IfOk, IfSome, IsErrOf};
ghost use Rattle.kin_io.specs.Outside.{Rose};

use crate::shelves::Shelf;
use kin_ids::Memory;
use std::alloc::Global;
use thiserror::Error;

/// Why a file could not be loaded.
#[derive(Clone, Copy, Debug, PartialEq, Eq, Error)]
pub enum LoadFault {
    #[error("the file could not be read")]
    Read,
    #[error("the file is longer than the limit")]
    Limit,
    #[error("out of memory")]
    Memory,
}

// The most bytes of one read.
const CHUNK: usize = 65536;

// A buffer of this many bytes.
fn buffer(alloc: Global, size: usize) -> Result<Vec<u8>, Memory>
    ensures { IfOk result (λ buf. length buf.items ≡ size) }
{
    Ok(vec![in alloc; 0; size]?)
}

/// Reads a whole file of at most `limit` bytes, in time linear in its bytes. Each turn takes a byte
/// or ends, and in all no more than `limit` + 1 bytes are taken. After a fault no byte is handed out.
pub fn load<F: Shelf>(
    alloc: Global,
    shelf: &mut F,
    name: &str,
    limit: u64,
) -> Result<Vec<u8>, LoadFault>
    ensures whole { IfOk result (λ bytes.
        IfSome (F.content shelf.old name.now) (λ file. bytes.items ≡ file)) }
    ensures within { IfOk result (λ bytes. length bytes.items ≤ limit) }
    ensures read { IsErrOf result LoadFault.Read
        → Rose (F.faults shelf.old name.now) (F.faults shelf.new name.now) }
    ensures limit { IsErrOf result LoadFault.Limit
        → IfSome (F.content shelf.old name.now) (λ file. limit < length file) }
    ensures content { (n : List ℕ) → F.content shelf.new n ≡ F.content shelf.old n }
    ensures counts { (n : List ℕ) → F.faults shelf.old n ≤ F.faults shelf.new n }
    ensures calm { (IsErrOf result LoadFault.Read → ⊥)
        → (n : List ℕ) → F.faults shelf.new n ≡ F.faults shelf.old n }
{
    let Ok(mut chunk) = buffer(alloc, CHUNK) else {
        return Err(LoadFault::Memory);
    };
    let buf = chunk.as_mut_slice();
    let mut bytes = Vec::new(alloc);
    while bytes.len() as u64 <= limit {
        let most = (limit - bytes.len() as u64).min(CHUNK as u64 - 1) as usize + 1;
        let Ok(count) = shelf.read_at(name, bytes.len() as u64, &mut buf[..most]) else {
            return Err(LoadFault::Read);
        };
        if count == 0 {
            return Ok(bytes);
        }
        let Ok(()) = bytes.extend_from_slice(&buf[..count]) else {
            return Err(LoadFault::Memory);
        };
    }
    Err(LoadFault::Limit)
}
