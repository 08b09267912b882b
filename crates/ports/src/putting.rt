//! Writing a whole slice into a sink.
ghost use Rattle.std.specs.Prelude.{◌≡◌, ◌≤◌, IsTrue, OnOk, OnErr};
ghost use Rattle.std.specs.Io.KnownBytes.{Appends};
ghost use Rattle.ports.specs.Devices.{HasCause, AppendsPart, StopsAtFailure};

use super::devices::{Failed, Sink};

/// Puts all of `from` into the sink, and stops at the first put that fails: then the sink has taken a part of it,
/// from its front, that isn't the whole.
pub fn put_all<K: Sink>(sink: &mut K, from: &[u8]) -> Result<(), Failed>
    ensures ok { OnOk result (Appends (K.taken sink.old) (K.taken sink.new) from.now) }
    ensures err { OnErr result (AppendsPart (K.taken sink.old) (K.taken sink.new) from.now) }
    ensures cause { HasCause (K.faults sink.old) (K.faults sink.new) result }
    ensures exact { IsTrue K.is_exact → StopsAtFailure (K.faults sink.old) (K.faults sink.new) (K.is_failing sink.new) result }
{
    let mut written = 0;
    while written < from.len() {
        match sink.put(&from[written..]) {
            Ok(count) => written += count,
            Err(failed) => return Err(failed),
        }
    }
    Ok(())
}

#[cfg(test)]
mod tests {
    use super::*;
    use crate::ByteSink;
    use std::test::Fail;

    #[test]
    fn a_put_that_fails_is_the_last_one(rt: HostRuntime) -> Result<(), Fail> {
        let text = b"abcdefg".as_slice();
        // Calls 0 to 2 take the text by three bytes; a fourth one would be another try.
        for (fail, answer, taken) in [
            (3, Ok(()), 7),
            (0, Err(Failed), 0),
            (1, Err(Failed), 3),
            (2, Err(Failed), 6),
        ] {
            let fails = Vec::from_slice(rt.alloc(), &[fail])?;
            let mut sink = ByteSink::new(rt.alloc(), 64, 3, fails)?;
            assert_eq!(rt; put_all(&mut sink, text), answer, "{fail}");
            assert!(rt; taken <= text.len());
            assert_eq!(rt; sink.bytes(), &text[..taken], "{fail}");
        }
        Ok(())
    }
}
