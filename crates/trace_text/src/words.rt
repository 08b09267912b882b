//! The words of lines that stand for a value.

ghost use Rattle.std.specs.Prelude.{◌≡◌};
ghost use Rattle.flat_policy.specs.Texts.Pieces.{value_of_word, bucket_words, end_words};
ghost use Rattle.trace_text.specs.Naming.{
  answer_names,
  place_names,
  refusal_names,
  run_names,
};

use sched_base::Bucket;

/// The bucket of a word.
pub fn bucket_of(word: &[u8]) -> Option<Bucket>
    ensures { result ≡ value_of_word bucket_words word.now }
{
    match word {
        b"UI" => Some(Bucket::Ui),
        b"FG" => Some(Bucket::Fg),
        b"IN" => Some(Bucket::Ini),
        b"DF" => Some(Bucket::Df),
        b"UT" => Some(Bucket::Ut),
        b"BG" => Some(Bucket::Bg),
        _ => None,
    }
}

/// The end of a queue: true for the head.
pub fn end_of(word: &[u8]) -> Option<bool>
    ensures { result ≡ value_of_word end_words word.now }
{
    match word {
        b"head" => Some(true),
        b"tail" => Some(false),
        _ => None,
    }
}

/// The words that a place begins with.
#[derive(Clone, Copy)]
pub enum PlaceWord {
    Queue,
    Hand,
    Blocked,
    Ended,
    Nowhere,
}

/// The name of a word of a place.
pub fn place_word(word: &[u8]) -> Option<PlaceWord>
    ensures { result ≡ value_of_word place_names word.now }
{
    match word {
        b"q" => Some(PlaceWord::Queue),
        b"hand" => Some(PlaceWord::Hand),
        b"blocked" => Some(PlaceWord::Blocked),
        b"ended" => Some(PlaceWord::Ended),
        b"none" => Some(PlaceWord::Nowhere),
        _ => None,
    }
}

/// The words that a refusal begins with.
#[derive(Clone, Copy)]
pub enum RefusalWord {
    HandFull,
    HandEmpty,
    NameUsed,
    NoRoom,
    NotBlocked,
    NotQueued,
    OwnCluster,
    NotAllowed,
    LookFirst,
}

/// The name of a word of a refusal.
#[tactic(auto, using(crate::proofs::NoWord::long_is_no_refusal, crate::proofs::NoWord::other_is_no_refusal))]
pub fn refusal_word(word: &[u8]) -> Option<RefusalWord>
    ensures { result ≡ value_of_word refusal_names word.now }
{
    match word {
        b"HandFull" => Some(RefusalWord::HandFull),
        b"HandEmpty" => Some(RefusalWord::HandEmpty),
        b"NameUsed" => Some(RefusalWord::NameUsed),
        b"NoRoom" => Some(RefusalWord::NoRoom),
        b"NotBlocked" => Some(RefusalWord::NotBlocked),
        b"NotQueued" => Some(RefusalWord::NotQueued),
        b"OwnCluster" => Some(RefusalWord::OwnCluster),
        b"NotAllowed" => Some(RefusalWord::NotAllowed),
        b"LookFirst" => Some(RefusalWord::LookFirst),
        _ => None,
    }
}

/// The words that an answer begins with.
#[derive(Clone, Copy)]
pub enum AnswerWord {
    Yes,
    Pri,
    Got,
    Empty,
    Off,
    Load,
    To,
    New,
    Left,
    Work,
    No,
}

/// The name of a word of an answer.
pub fn answer_word(word: &[u8]) -> Option<AnswerWord>
    ensures { result ≡ value_of_word answer_names word.now }
{
    match word {
        b"ok" => Some(AnswerWord::Yes),
        b"pri" => Some(AnswerWord::Pri),
        b"got" => Some(AnswerWord::Got),
        b"-" => Some(AnswerWord::Empty),
        b"off" => Some(AnswerWord::Off),
        b"load" => Some(AnswerWord::Load),
        b"to" => Some(AnswerWord::To),
        b"new" => Some(AnswerWord::New),
        b"left" => Some(AnswerWord::Left),
        b"work" => Some(AnswerWord::Work),
        b"no" => Some(AnswerWord::No),
        _ => None,
    }
}

/// The words that a line of a run begins with.
#[derive(Clone, Copy)]
pub enum RunWord {
    Thread,
    Off,
    On,
}

/// The name of a word of a line of a run.
pub fn run_word(word: &[u8]) -> Option<RunWord>
    ensures { result ≡ value_of_word run_names word.now }
{
    match word {
        b"thread" => Some(RunWord::Thread),
        b"off" => Some(RunWord::Off),
        b"on" => Some(RunWord::On),
        _ => None,
    }
}
