ghost use Rattle.std.specs.Prelude.{◌≡◌, ◌≢◌, ◌⊎◌, take, IfOk, IfErr, IfSome};
ghost use Rattle.std.specs.IoError.{error_kind};

use crate::faults::CliFault;
use std::alloc::Global;
use std::io;
use std::io::{ErrorKind, Read};

// One byte more than a job text may have, so that a longer one is refused by its length.
const MOST_READ: u64 = 1_048_577;

/// All that a reader gives, but for what lies past the longest job text and one byte more.
pub fn read_text<R: Read + Drop>(alloc: Global, reader: R) -> Result<Vec<u8>, CliFault>
    ensures ok { IfOk result (λ text. IfSome (R.remaining reader) (λ bytes. text.items ≡ take 1048577 bytes)) }
    ensures err { IfErr result (λ fault. (fault ≡ CliFault.Read) ⊎ (fault ≡ CliFault.Memory)) }
{
    let mut text = Vec::new(alloc);
    match reader.take(MOST_READ).read_to_end(&mut text) {
        Ok(_) => Ok(text),
        Err(error) => Err(memory_or(&error, CliFault::Read)),
    }
}

/// All that a reader of a trace gives.
pub fn read_trace<R: Read + Drop>(alloc: Global, reader: R) -> Result<Vec<u8>, CliFault>
    ensures ok { IfOk result (λ text. IfSome (R.remaining reader) (λ bytes. text.items ≡ bytes)) }
    ensures err { IfErr result (λ fault. (fault ≡ CliFault.ReadTrace) ⊎ (fault ≡ CliFault.Memory)) }
{
    let mut text = Vec::new(alloc);
    let mut reader = reader;
    match reader.read_to_end(&mut text) {
        Ok(_) => Ok(text),
        Err(error) => Err(memory_or(&error, CliFault::ReadTrace)),
    }
}

/// All that a reader of a ledger gives.
pub fn read_ledger<R: Read + Drop>(alloc: Global, reader: R) -> Result<Vec<u8>, CliFault>
    ensures ok { IfOk result (λ text. IfSome (R.remaining reader) (λ bytes. text.items ≡ bytes)) }
    ensures err { IfErr result (λ fault. (fault ≡ CliFault.ReadLedger) ⊎ (fault ≡ CliFault.Memory)) }
{
    let mut text = Vec::new(alloc);
    let mut reader = reader;
    match reader.read_to_end(&mut text) {
        Ok(_) => Ok(text),
        Err(error) => Err(memory_or(&error, CliFault::ReadLedger)),
    }
}

/// Want of memory if the system says so, else the given fault.
pub fn memory_or(error: &io::Error, fault: CliFault) -> CliFault
    ensures memory { error_kind error.now ≡ ErrorKind.OutOfMemory → result ≡ CliFault.Memory }
    ensures other { error_kind error.now ≢ ErrorKind.OutOfMemory → result ≡ fault }
{
    match error.kind() {
        ErrorKind::OutOfMemory => CliFault::Memory,
        _ => fault,
    }
}
