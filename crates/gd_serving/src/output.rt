//! Writing bytes.

ghost use Rattle.std.specs.Prelude.{◌≡◌, ◌≤◌, ℕ, length, take, OnOk, IfErr};
ghost use Rattle.std.specs.Io.KnownBytes.{Appends};
ghost use Rattle.gd_serving.specs.declared.failure.Failure.TheVariants.{WriteFailed};

use crate::failure::Failure;
use std::io::Write;

/// Writes all the bytes, by as many writes as that takes, and flushes them. Where a write fails or takes no bytes, some of
/// the bytes at the front were written, and no others.
pub(crate) fn write_bytes<W: Write>(writer: &mut W, bytes: &[u8]) -> Result<(), Failure>
    ensures all { OnOk result (Appends (W.contents writer.old) (W.contents writer.new) bytes.now) }
    ensures front { (n : ℕ) × Appends (W.contents writer.old) (W.contents writer.new) (take n bytes.now) }
    ensures failed { IfErr result (λ why. why ≡ WriteFailed) }
{
    let mut done = 0;
    while done < bytes.len() {
        match writer.write(&bytes[done..]) {
            Ok(0) => return Err(Failure::WriteFailed),
            Ok(count) => done += count,
            Err(_) => return Err(Failure::WriteFailed),
        }
    }
    match writer.flush() {
        Ok(()) => Ok(()),
        Err(_) => Err(Failure::WriteFailed),
    }
}
