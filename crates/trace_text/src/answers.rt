//! Answers, read.

ghost use Rattle.std.specs.Prelude.{◌≡◌};
ghost use Rattle.flat_policy.specs.Texts.Pieces.{most_of_32, most_of_64, next_piece, word_among};
ghost use Rattle.flat_policy.specs.Texts.Answers.{
  answer_at,
  counted,
  hand_at_actor,
  place_at,
  placed,
  queue_at,
  refusal_at,
};
ghost use Rattle.trace_text.specs.Naming.{
  answer_behind,
  answer_names,
  place_behind,
  place_names,
  refusal_behind,
  refusal_names,
};
ghost use Rattle.trace_text.specs.Reading.{Gives, left};

use crate::fields::{actor_at, cluster_at, number_at, small_at, wide_at};
use crate::pieces::{Pieces, next};
use crate::words::{AnswerWord, PlaceWord, RefusalWord, answer_word, place_word, refusal_word};
use flat_policy::texts::LineFault;
use sched_base::{Answer, Place};

fn queue_at(pieces: Pieces<'_>) -> Result<(Place, Pieces<'_>), LineFault>
    ensures { Gives (λ x. (x.0, left x.1)) result (queue_at (left pieces.entry)) }
{
    let (cluster, rest) = cluster_at(pieces)?;
    Ok((Place::Queue(cluster), rest))
}

fn hand_at(pieces: Pieces<'_>) -> Result<(Place, Pieces<'_>), LineFault>
    ensures { Gives (λ x. (x.0, left x.1)) result (hand_at_actor (left pieces.entry)) }
{
    let (actor, rest) = actor_at(pieces)?;
    Ok((Place::Hand(actor), rest))
}

fn place_word_at(pieces: Pieces<'_>) -> Result<(PlaceWord, Pieces<'_>), LineFault>
    ensures { Gives (λ x. (x.0, left x.1)) result (next_piece (word_among place_names) (left pieces.entry)) }
{
    let (piece, rest) = next(pieces)?;
    match place_word(piece) {
        Some(word) => Ok((word, rest)),
        None => Err(LineFault::Word),
    }
}

/// What stands behind a word of a place.
fn place_behind(word: PlaceWord, pieces: Pieces<'_>) -> Result<(Place, Pieces<'_>), LineFault>
    ensures { Gives (λ x. (x.0, left x.1)) result (place_behind word (left pieces.entry)) }
{
    match word {
        PlaceWord::Queue => queue_at(pieces),
        PlaceWord::Hand => hand_at(pieces),
        PlaceWord::Blocked => Ok((Place::Blocked, pieces)),
        PlaceWord::Ended => Ok((Place::Ended, pieces)),
        PlaceWord::Nowhere => Ok((Place::Nowhere, pieces)),
    }
}

/// A place, from its word on.
#[tactic(auto, using(crate::proofs::Naming::place_by_name))]
fn place_at(pieces: Pieces<'_>) -> Result<(Place, Pieces<'_>), LineFault>
    ensures { Gives (λ x. (x.0, left x.1)) result (place_at (left pieces.entry)) }
{
    let (word, rest) = place_word_at(pieces)?;
    place_behind(word, rest)
}

fn not_blocked_at(pieces: Pieces<'_>) -> Result<(Answer, Pieces<'_>), LineFault>
    ensures { Gives (λ x. (x.0, left x.1)) result (placed (λ p. Answer.NotBlocked p) (left pieces.entry)) }
{
    let (place, rest) = place_at(pieces)?;
    Ok((Answer::NotBlocked(place), rest))
}

fn not_queued_at(pieces: Pieces<'_>) -> Result<(Answer, Pieces<'_>), LineFault>
    ensures { Gives (λ x. (x.0, left x.1)) result (placed (λ p. Answer.NotQueued p) (left pieces.entry)) }
{
    let (place, rest) = place_at(pieces)?;
    Ok((Answer::NotQueued(place), rest))
}

fn look_first_at(pieces: Pieces<'_>) -> Result<(Answer, Pieces<'_>), LineFault>
    ensures { Gives (λ x. (x.0, left x.1)) result (counted (λ n. Answer.LookFirst n) 15 (left pieces.entry)) }
{
    let (cluster, rest) = cluster_at(pieces)?;
    Ok((Answer::LookFirst(cluster), rest))
}

fn refusal_word_at(pieces: Pieces<'_>) -> Result<(RefusalWord, Pieces<'_>), LineFault>
    ensures { Gives (λ x. (x.0, left x.1)) result (next_piece (word_among refusal_names) (left pieces.entry)) }
{
    let (piece, rest) = next(pieces)?;
    match refusal_word(piece) {
        Some(word) => Ok((word, rest)),
        None => Err(LineFault::Word),
    }
}

/// What stands behind a word of a refusal.
fn refusal_behind(word: RefusalWord, pieces: Pieces<'_>) -> Result<(Answer, Pieces<'_>), LineFault>
    ensures { Gives (λ x. (x.0, left x.1)) result (refusal_behind word (left pieces.entry)) }
{
    match word {
        RefusalWord::HandFull => Ok((Answer::HandFull, pieces)),
        RefusalWord::HandEmpty => Ok((Answer::HandEmpty, pieces)),
        RefusalWord::NameUsed => Ok((Answer::NameUsed, pieces)),
        RefusalWord::NoRoom => Ok((Answer::NoRoom, pieces)),
        RefusalWord::NotBlocked => not_blocked_at(pieces),
        RefusalWord::NotQueued => not_queued_at(pieces),
        RefusalWord::OwnCluster => Ok((Answer::OwnCluster, pieces)),
        RefusalWord::NotAllowed => Ok((Answer::NotAllowed, pieces)),
        RefusalWord::LookFirst => look_first_at(pieces),
    }
}

/// A refusal, from its word on.
#[tactic(auto, using(crate::proofs::Naming::refusal_by_name))]
fn refusal_at(pieces: Pieces<'_>) -> Result<(Answer, Pieces<'_>), LineFault>
    ensures { Gives (λ x. (x.0, left x.1)) result (refusal_at (left pieces.entry)) }
{
    let (word, rest) = refusal_word_at(pieces)?;
    refusal_behind(word, rest)
}

fn pri_at(pieces: Pieces<'_>) -> Result<(Answer, Pieces<'_>), LineFault>
    ensures { Gives (λ x. (x.0, left x.1)) result (counted (λ n. Answer.Pri n) 127 (left pieces.entry)) }
{
    let (priority, rest) = small_at(pieces, 127)?;
    Ok((Answer::Pri(priority), rest))
}

fn got_at(pieces: Pieces<'_>) -> Result<(Answer, Pieces<'_>), LineFault>
    ensures { Gives (λ x. (x.0, left x.1)) result (counted (λ n. Answer.Got n) most_of_32 (left pieces.entry)) }
{
    let (name, rest) = wide_at(pieces)?;
    Ok((Answer::Got(name), rest))
}

fn load_at(pieces: Pieces<'_>) -> Result<(Answer, Pieces<'_>), LineFault>
    ensures { Gives (λ x. (x.0, left x.1)) result (counted (λ n. Answer.Load n) most_of_32 (left pieces.entry)) }
{
    let (load, rest) = wide_at(pieces)?;
    Ok((Answer::Load(load), rest))
}

fn to_at(pieces: Pieces<'_>) -> Result<(Answer, Pieces<'_>), LineFault>
    ensures { Gives (λ x. (x.0, left x.1)) result (counted (λ n. Answer.To n) 15 (left pieces.entry)) }
{
    let (cluster, rest) = cluster_at(pieces)?;
    Ok((Answer::To(cluster), rest))
}

fn new_at(pieces: Pieces<'_>) -> Result<(Answer, Pieces<'_>), LineFault>
    ensures { Gives (λ x. (x.0, left x.1)) result (counted (λ n. Answer.New n) most_of_32 (left pieces.entry)) }
{
    let (count, rest) = wide_at(pieces)?;
    Ok((Answer::New(count), rest))
}

fn left_at(pieces: Pieces<'_>) -> Result<(Answer, Pieces<'_>), LineFault>
    ensures { Gives (λ x. (x.0, left x.1)) result (counted (λ n. Answer.Left n) most_of_32 (left pieces.entry)) }
{
    let (count, rest) = wide_at(pieces)?;
    Ok((Answer::Left(count), rest))
}

fn work_at(pieces: Pieces<'_>) -> Result<(Answer, Pieces<'_>), LineFault>
    ensures { Gives (λ x. (x.0, left x.1)) result (counted (λ n. Answer.Work n) most_of_64 (left pieces.entry)) }
{
    let (work, rest) = number_at(pieces, u64::MAX)?;
    Ok((Answer::Work(work), rest))
}

fn answer_word_at(pieces: Pieces<'_>) -> Result<(AnswerWord, Pieces<'_>), LineFault>
    ensures { Gives (λ x. (x.0, left x.1)) result (next_piece (word_among answer_names) (left pieces.entry)) }
{
    let (piece, rest) = next(pieces)?;
    match answer_word(piece) {
        Some(word) => Ok((word, rest)),
        None => Err(LineFault::Word),
    }
}

/// What stands behind a word of an answer.
fn answer_behind(word: AnswerWord, pieces: Pieces<'_>) -> Result<(Answer, Pieces<'_>), LineFault>
    ensures { Gives (λ x. (x.0, left x.1)) result (answer_behind word (left pieces.entry)) }
{
    match word {
        AnswerWord::Yes => Ok((Answer::Yes, pieces)),
        AnswerWord::Pri => pri_at(pieces),
        AnswerWord::Got => got_at(pieces),
        AnswerWord::Empty => Ok((Answer::Empty, pieces)),
        AnswerWord::Off => Ok((Answer::Off, pieces)),
        AnswerWord::Load => load_at(pieces),
        AnswerWord::To => to_at(pieces),
        AnswerWord::New => new_at(pieces),
        AnswerWord::Left => left_at(pieces),
        AnswerWord::Work => work_at(pieces),
        AnswerWord::No => refusal_at(pieces),
    }
}

/// An answer, from its word on.
#[tactic(auto, using(crate::proofs::Naming::answer_by_name))]
pub fn answer_at(pieces: Pieces<'_>) -> Result<(Answer, Pieces<'_>), LineFault>
    ensures { Gives (λ x. (x.0, left x.1)) result (answer_at (left pieces.entry)) }
{
    let (word, rest) = answer_word_at(pieces)?;
    answer_behind(word, rest)
}
