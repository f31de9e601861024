//! Reads inputs to their ends, within limits on their bytes and on the calls that they take.
ghost use Rattle.std.specs.Prelude.{◌≡◌, ◌≢◌, ◌↔◌, IfOk, IfErr, IfSome, IsErrOf, map};
ghost use Rattle.cudf_device.specs.Readers.{change, ReadsAll, IsUnfinished, IsTooLong, StopsInTime, names_in};
ghost use Rattle.cudf_device.specs.Promises.InTurn.{ReadsInTurn};

use crate::device::{Source, Trouble};
use crate::outcome::RunError;
use std::alloc::Global;

/// The most bytes that an input may have.
const MAX_BYTES: usize = 268435456;

/// The most turns that an input may take. A turn is one call of `read`.
const MAX_TURNS: u32 = 536870912;

/// The bytes of a source up to its end. A turn is one call of `read`; an interrupted read is tried again, as a further
/// turn.
///
/// # Errors
///
/// - `Read`: a read failed, or turn 536870912 neither ended the input nor made it too long.
/// - `TooLong`: the source gave more than 268435456 bytes (256 MiB).
/// - `Memory`: memory for the bytes is refused.
///
/// The source isn't called again after a call that failed, reached the end or gave too much.
pub fn read_all<R: Source>(alloc: Global, source: &mut R) -> Result<Vec<u8>, RunError>
    ensures whole { IfOk result (λ v. IfSome (R.state source.old).remaining (λ all. v.items ≡ all)) }
    ensures all { IfOk result (λ v. ReadsAll (change R.state source.old source.new) v.items) }
    ensures unended { IfErr result (λ e. (R.state source.new).ends ≡ (R.state source.old).ends) }

    // Exactly where the source gave too many bytes.
    ensures too_long { IsErrOf result RunError.TooLong ↔ IsTooLong (change R.state source.old source.new) }

    // Exactly where a read failed, or the last of the turns neither ended the input nor made it too long.
    ensures read { IsErrOf result RunError.Read ↔ IsUnfinished (change R.state source.old source.new) }

    ensures calls { StopsInTime (change R.state source.old source.new) }
    ensures named { (R.state source.new).name ≡ (R.state source.old).name }
    ensures no_write { result ≢ Err RunError.Write }
{
    let mut bytes = Vec::new(alloc);
    let mut chunk = [0u8; 65536];
    for turn in 0..MAX_TURNS {
        match source.read(&mut chunk) {
            Ok(0) => return Ok(bytes),
            Ok(n) => {
                if n > MAX_BYTES - bytes.len() {
                    return Err(RunError::TooLong);
                }
                // The last turn is answered before its bytes need memory.
                if turn + 1 == MAX_TURNS {
                    return Err(RunError::Read);
                }
                if bytes.extend_from_slice(&chunk[..n]).is_err() {
                    return Err(RunError::Memory);
                }
            }
            Err(Trouble::Interrupted) => {}
            Err(Trouble::Failed) => return Err(RunError::Read),
        }
    }
    Err(RunError::Read)
}

/// The bytes of each source up to its end, in their order.
///
/// # Errors
///
/// Those of [`read_all`], of the first source whose reading ends in one: the sources after it aren't called. `Memory`
/// also where memory for the list is refused.
pub fn read_each<S: Source>(alloc: Global, sources: &mut [S]) -> Result<Vec<Vec<u8>>, RunError>
    ensures reads { ReadsInTurn S.state sources.old sources.new (λ v. map (λ b. b.items) v.items) result }
    ensures named { IfOk result (λ _. names_in S.state sources.new ≡ names_in S.state sources.old) }
{
    let mut texts = Vec::new(alloc);
    for source in sources.iter_mut() {
        let text = read_all(alloc, source)?;
        if texts.push(text).is_err() {
            return Err(RunError::Memory);
        }
    }
    Ok(texts)
}
