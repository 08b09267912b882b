//! The six buckets of quality of service.

ghost use Rattle.std.specs.Prelude.{◌≡◌, ◌<◌, ◌↔◌, IsNone, IfSome};
ghost use Rattle.sched_base.specs.Bucket.{index};

/// A bucket of quality of service, the most urgent first: user interface, foreground, user
/// initiated, default, utility and background.
#[derive(Clone, Copy, Debug, PartialEq, Eq, PartialOrd, Ord)]
pub enum Bucket {
    Ui,
    Fg,
    Ini,
    Df,
    Ut,
    Bg,
}

impl Bucket {
    /// The bucket of an index; `None` exactly where the index exceeds 5.
    pub fn from_index(i: u8) -> Option<Bucket>
        ensures none { IsNone result ↔ (5 < i) }
        ensures found { IfSome result (λ bucket. index bucket ≡ i) }
    {
        match i {
            0 => Some(Bucket::Ui),
            1 => Some(Bucket::Fg),
            2 => Some(Bucket::Ini),
            3 => Some(Bucket::Df),
            4 => Some(Bucket::Ut),
            5 => Some(Bucket::Bg),
            _ => None,
        }
    }

    /// The index of a bucket, from 0 for the user interface to 5 for the background.
    pub fn index(self) -> u8
        ensures index { result ≡ index self }
        ensures small { result < 6 }
    {
        match self {
            Bucket::Ui => 0,
            Bucket::Fg => 1,
            Bucket::Ini => 2,
            Bucket::Df => 3,
            Bucket::Ut => 4,
            Bucket::Bg => 5,
        }
    }
}
