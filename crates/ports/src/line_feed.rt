//! The lines of a source, one at a time.
ghost use Rattle.std.specs.Prelude.{◌≡◌, ◌+◌, ◌-◌, ◌<◌, ◌≤◌, ◌↔◌, [], length, take, drop, true, false, IfOk, IsTrue};
ghost use Rattle.std.specs.Io.{StartsWith};
ghost use Rattle.std.specs.Io.KnownBytes.{Consumes};
ghost use Rattle.ports.specs.LineFeed.{IsFed, IsAtHand, CountsFault, bytes_ahead, in_hand, given_by, decided_by};
ghost use Rattle.ports.specs.NextLine.{IsOfBytes};

use super::buffer::Buffer;
use super::devices::Source;
use super::judging::judge;
use super::newline_search::first_newline;
use super::seeking::seek;
use sched_base::limits::{INPUT_BYTES, PIECE_BYTES, SETUP_BYTES};
use std::alloc::{AllocError, Global};
use std::marker::Model;

/// What came next.
#[derive(Clone, Copy, Debug, PartialEq, Eq)]
pub enum Fed {
    /// A line and its newline.
    Line,
    /// A line with more bytes than the limit.
    Long,
    /// Bytes without a newline, and then the input's end.
    Unfinished,
    /// The input's end.
    End,
    /// The source failed before that was known.
    Fault,
    /// More bytes than count, and no newline among those of them that were left.
    Over,
}

/// A reader that gives the lines of a source one at a time, and holds one line of input at a time.
#[derive(Drop)]
pub struct LineFeed {
    buffer: Buffer,
    // How many bytes at the buffer's front were given: a line and its newline, or none.
    given: usize,
    // Where the first newline behind them stands, until the feed is done.
    newline: Option<usize>,
    // How many bytes were given in all.
    passed: u64,
    done: bool,
}

impl Model for LineFeed {
    ghost use Rattle.std.specs.Prelude.{◌≡◌, ◌+◌, ◌-◌, ◌<◌, ◌≤◌, length, take, drop, true, false};
    ghost use Rattle.sched_base.specs.Limits.{input_bytes, piece_bytes};
    ghost use Rattle.ports.specs.Feeds.{Feed};
    ghost use Rattle.ports.specs.Lines.{IsFirstNewline};

    ghost Value = { Feed };

    ghost view = { λ f. record {
      line = take (f.given - 1) f.buffer;
      held = drop f.given f.buffer;
      passed = f.passed;
      done = f.done;
    } };

    ghost invariant = { λ f. record {
      within : f.given ≤ length f.buffer;
      counts : f.passed ≤ input_bytes;
      most : f.passed + (length f.buffer - f.given) ≤ input_bytes + 1;
      few : f.done ≡ false → length f.buffer - f.given < piece_bytes;
      newline : f.done ≡ false → IsFirstNewline (drop f.given f.buffer) f.newline;
    } };
}

impl LineFeed {
    /// A feed that has taken nothing. It has room for a line of `SETUP_BYTES` bytes and a piece of `PIECE_BYTES`.
    /// The only error is want of memory.
    pub fn new(alloc: Global) -> Result<LineFeed, AllocError>
        ensures { IfOk result (λ feed. feed ≡ record { line = []; held = []; passed = 0; done = false }) }
    {
        Ok(LineFeed {
            buffer: Buffer::new(alloc)?,
            given: 0,
            newline: None,
            passed: 0,
            done: false,
        })
    }

    /// Reads on until it is known what comes next: a line of at most `limit` bytes, or else why there is none.
    /// The bytes behind it are kept for the next call. It takes no memory.
    ///
    /// The source is asked for no byte past `INPUT_BYTES + 1`, for none where the answer is at hand, and never again
    /// after a failure.
    #[inline(always)]
    pub fn next<S: Source>(&mut self, source: &mut S, limit: u32) -> Fed
        requires limit { limit ≤ SETUP_BYTES }
        requires open { self.old.done ≡ false }

        // The answer is the one that the bytes meet.
        ensures answer { IsFed limit (S.left source.new) (S.faults source.old) (S.faults source.new) self.new result }

        // No byte is lost or made up, and only a line is given away.
        ensures bytes { Consumes (bytes_ahead self.old (S.left source.old)) (bytes_ahead self.new (S.left source.new)) (given_by self.new result) }
        ensures keeps { StartsWith (in_hand self.new result) self.old.held }
        ensures passed { self.new.passed ≡ self.old.passed + length (given_by self.new result) }

        // Over told bytes the answer and the line are those of the bytes alone, however the source cuts them.
        ensures told { IsOfBytes limit self.old (S.left source.old) self.new result }

        // Few bytes are taken beyond the one that decided, and none beyond the last one that matters.
        ensures ahead { self.new.passed + length self.new.held < decided_by limit self.new result + PIECE_BYTES }
        ensures most { self.new.passed + length self.new.held ≤ INPUT_BYTES + 1 }

        // A source whose count is exact shows that no take follows one that failed.
        ensures later { S.faults source.old ≤ S.faults source.new }
        ensures exact { IsTrue S.is_exact → CountsFault (S.faults source.old) (S.faults source.new) (S.is_failing source.new) result }

        // Where the answer is at hand, nothing is taken.
        ensures idle { IsAtHand limit self.old → source.new ≡ source.old }
    {
        self.buffer.pass(self.given);
        self.given = 0;
        let counted = INPUT_BYTES - self.passed;
        let found = seek(
            &mut self.buffer,
            self.newline,
            source,
            limit as usize,
            counted as usize,
        );
        match found.answer {
            Fed::Line => {
                self.given = found.length + 1;
                self.passed += found.length as u64 + 1;
                self.newline = first_newline(&self.buffer.bytes()[self.given..], 0);
                Fed::Line
            }
            stop => {
                self.done = true;
                stop
            }
        }
    }

    /// Whether the next answer is at hand: the bytes that were taken hold a whole line, or more bytes than a line may
    /// have or than count. Then `next` with this limit takes nothing from its source.
    pub fn is_at_hand(&self, limit: u32) -> bool
        requires limit { limit ≤ SETUP_BYTES }
        requires open { self.now.done ≡ false }
        ensures { IsTrue result ↔ IsAtHand limit self.now }
    {
        let counted = INPUT_BYTES - self.passed;
        let held = &self.buffer.bytes()[self.given..];
        judge(held, self.newline, limit as usize, counted as usize).is_some()
    }

    /// The line that was given, without its newline, where the last answer was `Line`; else nothing.
    pub fn line(&self) -> &[u8]
        ensures { result.now ≡ self.now.line }
    {
        &self.buffer.bytes()[..self.given.saturating_sub(1)]
    }

    /// Whether an answer other than `Line` was given.
    pub fn done(&self) -> bool
        ensures { result ≡ self.now.done }
    {
        self.done
    }

    /// How many bytes were taken from the source.
    pub fn taken(&self) -> u64
        ensures { result ≡ self.now.passed + length self.now.held }
    {
        self.passed + (self.buffer.len() - self.given) as u64
    }
}

#[cfg(test)]
mod tests {
    use super::*;
    use crate::{ByteSource, Failed, SureSource};
    use sched_base::limits::LINE_BYTES;
    use std::process::Abort;
    use std::test::Fail;

    const LONGEST: u32 = SETUP_BYTES as u32;

    #[test]
    fn the_lines_are_the_same_however_the_bytes_are_cut(rt: HostRuntime) -> Result<(), Fail> {
        let cases: [(&[u8], u32, &[&[u8]], Fed); 9] = [
            (b"a\nb", 256, &[b"a"], Fed::Unfinished),
            (b"", 256, &[], Fed::End),
            (b"\n\nlast\n", 256, &[b"", b"", b"last"], Fed::End),
            (b"four\nfive5\n", 4, &[b"four"], Fed::Long),
            (b"four\nfive", 4, &[b"four"], Fed::Unfinished),
            (b"\nx", 0, &[b""], Fed::Long),
            (b"\r\n \n", 1, &[b"\r", b" "], Fed::End),
            (
                b"12345678\n12345678\n1234567\n",
                8,
                &[b"12345678", b"12345678", b"1234567"],
                Fed::End,
            ),
            (
                b"0 go\n\na line of 31 bytes: 01234567890\na line of 32 bytes: 012345678901\n",
                32,
                &[
                    b"0 go",
                    b"",
                    b"a line of 31 bytes: 01234567890",
                    b"a line of 32 bytes: 012345678901",
                ],
                Fed::End,
            ),
        ];
        for (text, limit, lines, last) in cases {
            for piece in [1, 2, 7, 4096] {
                gives_lines(&rt, rt.alloc(), text, piece, limit, lines, last)?;
            }
        }
        Ok(())
    }

    fn gives_lines(
        rt: &impl Abort,
        alloc: Global,
        text: &[u8],
        piece: usize,
        limit: u32,
        lines: &[&[u8]],
        last: Fed,
    ) -> Result<(), AllocError> {
        assert!(rt; piece >= 1);
        assert!(rt; limit <= LONGEST);
        let bytes = Vec::from_slice(alloc, text)?;
        let mut source = ByteSource::new(bytes, piece, Vec::new(alloc));
        let mut feed = LineFeed::new(alloc)?;
        for line in lines {
            assert!(rt; !feed.done());
            assert_eq!(rt; feed.next(&mut source, limit), Fed::Line, "piece {piece}");
            assert_eq!(rt; feed.line(), *line, "piece {piece}");
        }
        assert!(rt; !feed.done());
        assert_eq!(rt; feed.next(&mut source, limit), last, "piece {piece}");
        assert!(rt; feed.done());
        assert!(rt; feed.line().is_empty());
        assert!(rt; feed.taken() <= text.len() as u64);
        Ok(())
    }

    #[test]
    fn a_fault_is_answered_after_the_whole_lines(rt: HostRuntime) -> Result<(), Fail> {
        let bytes = Vec::from_slice(rt.alloc(), b"one\ntwo\nthree")?;
        let fails = Vec::from_slice(rt.alloc(), &[2])?;
        let mut source = ByteSource::new(bytes, 5, fails);
        let mut feed = LineFeed::new(rt.alloc())?;
        for (answer, line, taken) in [
            (Fed::Line, b"one".as_slice(), 5),
            (Fed::Line, b"two", 10),
            (Fed::Fault, b"", 10),
        ] {
            assert!(rt; !feed.done());
            assert_eq!(rt; feed.next(&mut source, 256), answer);
            assert_eq!(rt; feed.line(), line);
            assert_eq!(rt; feed.taken(), taken);
        }
        Ok(())
    }

    #[test]
    fn no_take_follows_one_that_failed(rt: HostRuntime) -> Result<(), Fail> {
        // Takes 0 to 3 are "one\nt", "wo\nth", "ree" and the end. The take behind the failed one fails too, where it is the
        // first that the test makes.
        for (fail, lines) in [(0u64, 0u64), (1, 1), (2, 2), (3, 2)] {
            let bytes = Vec::from_slice(rt.alloc(), b"one\ntwo\nthree")?;
            let fails = Vec::from_slice(rt.alloc(), &[fail, fail.saturating_add(1)])?;
            let mut source = ByteSource::new(bytes, 5, fails);
            let mut feed = LineFeed::new(rt.alloc())?;
            let mut given: u64 = 0;
            for _turn in 0..4 {
                if !feed.done() && feed.next(&mut source, 256) == Fed::Line {
                    given = given.saturating_add(1);
                }
            }
            assert_eq!(rt; given, lines);
            assert_eq!(rt; source.take(&mut [0; 8]), Err(Failed), "{fail}");
        }
        Ok(())
    }

    #[test]
    fn an_answer_is_at_hand_where_the_bytes_decide_it(rt: HostRuntime) -> Result<(), Fail> {
        // The first take gives "one\ntwo\nth", the second one the rest.
        let bytes = Vec::from_slice(rt.alloc(), b"one\ntwo\nthree\nx")?;
        let mut source = ByteSource::new(bytes, 10, Vec::new(rt.alloc()));
        let mut feed = LineFeed::new(rt.alloc())?;
        for (limit, is_at_hand, answer) in [
            (5, false, Fed::Line),
            (5, true, Fed::Line),
            (5, false, Fed::Line),
            (0, true, Fed::Long),
        ] {
            assert!(rt; !feed.done());
            assert_eq!(rt; feed.is_at_hand(limit), is_at_hand);
            assert_eq!(rt; feed.next(&mut source, limit), answer);
        }
        Ok(())
    }

    #[test]
    fn the_longest_lines_and_a_piece_fit(rt: HostRuntime) -> Result<(), Fail> {
        for limit in [LINE_BYTES, SETUP_BYTES] {
            let mut bytes = Vec::from_elem(rt.alloc(), b'x', limit)?;
            bytes.push(b'\n')?;
            bytes.extend_from_slice(&[b'y'; SETUP_BYTES])?;
            bytes.push(b'y')?;
            let mut source = SureSource::new(bytes);
            let mut feed = LineFeed::new(rt.alloc())?;
            assert_eq!(rt; feed.next(&mut source, limit as u32), Fed::Line);
            assert_eq!(rt; feed.line().len(), limit);
            assert!(rt; !feed.done());
            assert_eq!(rt; feed.next(&mut source, limit as u32), Fed::Long);
        }
        Ok(())
    }
}
