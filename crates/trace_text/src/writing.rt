//! Steps and answers, written.

ghost use Rattle.std.specs.Prelude.{◌≡◌, ◌≤◌, ◌+◌, ◌++◌, ◌∷◌, codes, decimal, length, take};
ghost use Rattle.flat_policy.specs.Texts.Pieces.{bound_piece, bucket_piece, end_piece, spaced};
ghost use Rattle.flat_policy.specs.Texts.Steps.{act_pieces, step_text};
ghost use Rattle.flat_policy.specs.Texts.Answers.{answer_text, place_pieces};
ghost use Rattle.trace_text.specs.Writing.{AnswerFits, IsStepText, StepFits, answer_part};

use crate::line_out::LineOut;
use crate::placing::{put, put_long, put_small, put_wide, put_word};
use sched_base::{Act, Answer, Bucket, Place, Step};

/// Puts a word and a number of 8 bits behind it.
#[inline(always)]
fn put_with_small(room: &mut [u8], at: usize, word: &[u8], number: u8) -> usize
    requires { at + (length word.now + 3) ≤ length room.old }
    ensures text { take result room.new ≡ take at room.old ++ (word.now ++ decimal number) }
    ensures most { result ≤ at + (length word.now + 3) }
    ensures long { length room.new ≡ length room.old }
{
    let end = put_word(room, at, word);
    put_small(room, end, number)
}

/// Puts a word and a number of 32 bits behind it.
#[inline(always)]
fn put_with_wide(room: &mut [u8], at: usize, word: &[u8], number: u32) -> usize
    requires { at + (length word.now + 10) ≤ length room.old }
    ensures text { take result room.new ≡ take at room.old ++ (word.now ++ decimal number) }
    ensures most { result ≤ at + (length word.now + 10) }
    ensures long { length room.new ≡ length room.old }
{
    let end = put_word(room, at, word);
    put_wide(room, end, number)
}

/// Puts a word and a number of 64 bits behind it.
#[inline(always)]
fn put_with_long(room: &mut [u8], at: usize, word: &[u8], number: u64) -> usize
    requires { at + (length word.now + 20) ≤ length room.old }
    ensures text { take result room.new ≡ take at room.old ++ (word.now ++ decimal number) }
    ensures most { result ≤ at + (length word.now + 20) }
    ensures long { length room.new ≡ length room.old }
{
    let end = put_word(room, at, word);
    put_long(room, end, number)
}

fn bucket_bytes(bucket: Bucket) -> &'static [u8]
    ensures text { result.now ≡ bucket_piece bucket }
    ensures short { length result.now ≡ 2 }
{
    match bucket {
        Bucket::Ui => b"UI",
        Bucket::Fg => b"FG",
        Bucket::Ini => b"IN",
        Bucket::Df => b"DF",
        Bucket::Ut => b"UT",
        Bucket::Bg => b"BG",
    }
}

fn end_bytes(head: bool) -> &'static [u8]
    ensures text { result.now ≡ end_piece head }
    ensures short { length result.now ≡ 4 }
{
    if head { b"head" } else { b"tail" }
}

/// Puts a cluster that a thread is bound to, or `-`.
fn put_bound(room: &mut [u8], at: usize, bound: Option<u8>) -> usize
    requires { at + 3 ≤ length room.old }
    ensures text { take result room.new ≡ take at room.old ++ bound_piece bound }
    ensures most { result ≤ at + 3 }
    ensures long { length room.new ≡ length room.old }
{
    match bound {
        None => put_word(room, at, b"-"),
        Some(cluster) => put_small(room, at, cluster),
    }
}

fn put_make(
    room: &mut [u8],
    at: usize,
    name: u32,
    group: u8,
    bucket: Bucket,
    base: u8,
    bound: Option<u8>,
) -> usize
    requires { at + 32 ≤ length room.old }
    ensures text { take result room.new ≡ take at room.old ++ spaced (act_pieces (Act.Make name group bucket base bound)) }
    ensures most { result ≤ at + 32 }
    ensures long { length room.new ≡ length room.old }
{
    let at = put_with_wide(room, at, b"make ", name);
    let at = put_with_small(room, at, b" ", group);
    let at = put_word(room, at, b" ");
    let at = put(room, at, bucket_bytes(bucket));
    let at = put_with_small(room, at, b" ", base);
    let at = put_word(room, at, b" ");
    put_bound(room, at, bound)
}

#[inline(always)]
fn put_enter(room: &mut [u8], at: usize, cluster: u8, head: bool) -> usize
    requires { at + 14 ≤ length room.old }
    ensures text { take result room.new ≡ take at room.old ++ spaced (act_pieces (Act.Enter cluster head)) }
    ensures most { result ≤ at + 14 }
    ensures long { length room.new ≡ length room.old }
{
    let at = put_with_small(room, at, b"enter ", cluster);
    let at = put_word(room, at, b" ");
    put(room, at, end_bytes(head))
}

/// Puts an act.
#[inline(always)]
fn put_act(room: &mut [u8], at: usize, act: &Act) -> usize
    requires { at + 32 ≤ length room.old }
    ensures text { take result room.new ≡ take at room.old ++ spaced (act_pieces act.now) }
    ensures most { result ≤ at + 32 }
    ensures long { length room.new ≡ length room.old }
{
    match *act {
        Act::Make {
            name,
            group,
            bucket,
            base,
            bound,
        } => put_make(room, at, name, group, bucket, base, bound),
        Act::Enter { cluster, head } => put_enter(room, at, cluster, head),
        Act::Select => put_word(room, at, b"select"),
        Act::Offer { cluster } => put_with_small(room, at, b"offer ", cluster),
        Act::Pull { name } => put_with_wide(room, at, b"pull ", name),
        Act::Look { cluster } => put_with_small(room, at, b"look ", cluster),
        Act::Aim => put_word(room, at, b"aim"),
        Act::Ran { us } => put_with_wide(room, at, b"ran ", us),
        Act::Sleep => put_word(room, at, b"sleep"),
        Act::Wake { name } => put_with_wide(room, at, b"wake ", name),
        Act::End => put_word(room, at, b"end"),
        Act::Blocked => put_word(room, at, b"blocked"),
        Act::Refresh => put_word(room, at, b"refresh"),
        Act::Off { cluster } => put_with_small(room, at, b"off ", cluster),
        Act::On { cluster } => put_with_small(room, at, b"on ", cluster),
    }
}

/// Puts a place.
fn put_place(room: &mut [u8], at: usize, place: Place) -> usize
    requires { at + 8 ≤ length room.old }
    ensures text { take result room.new ≡ take at room.old ++ spaced (place_pieces place) }
    ensures most { result ≤ at + 8 }
    ensures long { length room.new ≡ length room.old }
{
    match place {
        Place::Queue(cluster) => put_with_small(room, at, b"q ", cluster),
        Place::Hand(actor) => put_with_small(room, at, b"hand ", actor),
        Place::Blocked => put_word(room, at, b"blocked"),
        Place::Ended => put_word(room, at, b"ended"),
        Place::Nowhere => put_word(room, at, b"none"),
    }
}

#[tactic(auto, using(crate::proofs::Texts::not_blocked_text))]
fn put_not_blocked(room: &mut [u8], at: usize, place: Place) -> usize
    requires { at + 22 ≤ length room.old }
    ensures text { take result room.new ≡ take at room.old ++ answer_text (Answer.NotBlocked place) }
    ensures most { result ≤ at + 22 }
    ensures long { length room.new ≡ length room.old }
{
    let at = put_word(room, at, b"no NotBlocked ");
    put_place(room, at, place)
}

#[tactic(auto, using(crate::proofs::Texts::not_queued_text))]
fn put_not_queued(room: &mut [u8], at: usize, place: Place) -> usize
    requires { at + 21 ≤ length room.old }
    ensures text { take result room.new ≡ take at room.old ++ answer_text (Answer.NotQueued place) }
    ensures most { result ≤ at + 21 }
    ensures long { length room.new ≡ length room.old }
{
    let at = put_word(room, at, b"no NotQueued ");
    put_place(room, at, place)
}

/// Puts an answer.
#[inline(always)]
fn put_answer(room: &mut [u8], at: usize, answer: &Answer) -> usize
    requires { at + 25 ≤ length room.old }
    ensures text { take result room.new ≡ take at room.old ++ answer_text answer.now }
    ensures most { result ≤ at + 25 }
    ensures long { length room.new ≡ length room.old }
{
    match *answer {
        Answer::Yes => put_word(room, at, b"ok"),
        Answer::Pri(priority) => put_with_small(room, at, b"pri ", priority),
        Answer::Got(name) => put_with_wide(room, at, b"got ", name),
        Answer::Empty => put_word(room, at, b"-"),
        Answer::Off => put_word(room, at, b"off"),
        Answer::Load(load) => put_with_wide(room, at, b"load ", load),
        Answer::To(cluster) => put_with_small(room, at, b"to ", cluster),
        Answer::New(count) => put_with_wide(room, at, b"new ", count),
        Answer::Left(count) => put_with_wide(room, at, b"left ", count),
        Answer::Work(work) => put_with_long(room, at, b"work ", work),
        Answer::HandFull => put_word(room, at, b"no HandFull"),
        Answer::HandEmpty => put_word(room, at, b"no HandEmpty"),
        Answer::NameUsed => put_word(room, at, b"no NameUsed"),
        Answer::NoRoom => put_word(room, at, b"no NoRoom"),
        Answer::NotBlocked(place) => put_not_blocked(room, at, place),
        Answer::NotQueued(place) => put_not_queued(room, at, place),
        Answer::OwnCluster => put_word(room, at, b"no OwnCluster"),
        Answer::NotAllowed => put_word(room, at, b"no NotAllowed"),
        Answer::LookFirst(cluster) => put_with_small(room, at, b"no LookFirst ", cluster),
    }
}

/// Puts a step.
#[inline(always)]
#[tactic(auto, using(crate::proofs::Texts::step_text_is))]
pub(crate) fn put_step(room: &mut [u8], at: usize, s: &Step) -> usize
    requires { at + 57 ≤ length room.old }
    ensures text { take result room.new ≡ take at room.old ++ step_text s.now }
    ensures most { result ≤ at + 57 }
    ensures long { length room.new ≡ length room.old }
{
    let at = put_long(room, at, s.moment);
    let at = put_with_small(room, at, b" ", s.actor);
    let at = put_word(room, at, b" ");
    put_act(room, at, &s.act)
}

/// Puts ` = `, an answer and a newline.
#[inline(always)]
pub(crate) fn put_answer_part(room: &mut [u8], at: usize, a: &Answer) -> usize
    requires { at + 29 ≤ length room.old }
    ensures text { take result room.new ≡ take at room.old ++ answer_part a.now }
    ensures most { result ≤ at + 29 }
    ensures long { length room.new ≡ length room.old }
{
    let at = put_word(room, at, b" = ");
    let at = put_answer(room, at, a);
    put_word(room, at, b"\n")
}

/// Replaces the contents by the text of a step whose numbers are in the ranges of lines.
pub fn write_step(out: &mut LineOut, s: &Step)
    requires { StepFits s.now }
    ensures text { out.new ≡ step_text s.now }
    // So `write_answer` may follow.
    ensures written { IsStepText out.new }
{
    out.len = put_step(&mut out.buffer, 0, s);
}

/// Replaces the contents by the text of an answer alone, whose numbers are in the ranges of lines.
pub fn write_bare(out: &mut LineOut, a: &Answer)
    requires { AnswerFits a.now }
    ensures { out.new ≡ answer_text a.now }
{
    out.len = put_answer(&mut out.buffer, 0, a);
}

/// Appends ` = `, the text of an answer whose numbers are in the ranges of lines, and a newline to
/// the text of one step.
pub fn write_answer(out: &mut LineOut, a: &Answer)
    requires step { IsStepText out.old }
    requires answer { AnswerFits a.now }
    ensures { out.new ≡ out.old ++ answer_part a.now }
{
    out.len = put_answer_part(&mut out.buffer, out.len, a);
}
