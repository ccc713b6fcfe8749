//! Reading a source to its end.

ghost use Rattle.std.specs.Prelude.{◌≡◌, ◌+◌, ◌≤◌, ◌<◌, ◌^◌, ◌++◌, length, option_map, IfOk, OnErr};
ghost use Rattle.grain_streams.specs.Reads.{ReadInTurn};
ghost use Rattle.grain_streams.specs.Streams.{Rose, IsSpent, TakenWithin};

use crate::sources::{Read, Source};
use grain_value::OutOfMemory;
use std::alloc::Global;

/// The source failed.
#[derive(Clone, Copy, Debug, PartialEq, Eq)]
pub struct SourceFailed;

/// The bytes of the source up to its end, or one more than the most that are wanted.
pub fn read_all<S: Source>(
    alloc: Global,
    source: &mut S,
    most: usize,
) -> Result<Result<Vec<u8>, SourceFailed>, OutOfMemory>
    requires { most < 2 ^ 63 }
    ensures all { IfOk result (λ r. IfOk r (λ v.
        option_map (λ others. v.items ++ others) (S.left source.new) ≡ S.left source.old)) }
    ensures end { IfOk result (λ r. IfOk r (λ v.
        length v.items ≤ most → IsSpent (S.left source.new))) }
    ensures failed { IfOk result (λ r. OnErr r (Rose (S.faults source.old) (S.faults source.new))) }
    ensures counted { S.faults source.old ≤ S.faults source.new }
    ensures bounded { TakenWithin (most + 1) (S.left source.old) (S.left source.new) }
    ensures reads { ReadInTurn S.reads (most + 1) source.old source.new }
{
    let mut bytes = Vec::new(alloc);
    let mut buffer = [0u8; 4096];
    'fill: while bytes.len() <= most {
        let room = (most + 1 - bytes.len()).min(4096);
        match source.read(&mut buffer[..room]) {
            Read::Failed => return Ok(Err(SourceFailed)),
            Read::End => return Ok(Ok(bytes)),
            Read::Got(0) => return Ok(Ok(bytes)),
            Read::Got(count) => bytes.extend_from_slice(&buffer[..count])?,
        }
    }
    Ok(Ok(bytes))
}
