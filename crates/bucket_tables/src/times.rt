//! The times of version 1, in microseconds.

ghost use Rattle.std.specs.Prelude.{◌≡◌, ◌∷◌, []};
ghost use Rattle.bucket_tables.specs.Tables.{by_bucket, quantum_of, warp_of, wcel_of};

use sched_base::Bucket;
use sched_base::limits::BUCKET_COUNT;

/// How long after it fills a lane of the bucket is to be served, in microseconds; 0 for `Ui`,
/// where it is unused.
pub fn wcel(b: Bucket) -> u64
    ensures { result ≡ wcel_of b }
{
    match b {
        Bucket::Ui | Bucket::Fg => 0,
        Bucket::Ini => 37_500,
        Bucket::Df => 75_000,
        Bucket::Ut => 150_000,
        Bucket::Bg => 250_000,
    }
}

/// How long a lane of the bucket may pass an earlier deadline, in microseconds; 0 for `Ui`,
/// where it is unused.
pub fn warp(b: Bucket) -> u64
    ensures { result ≡ warp_of b }
{
    match b {
        Bucket::Fg => 8000,
        Bucket::Ini => 4000,
        Bucket::Df => 2000,
        Bucket::Ut => 1000,
        Bucket::Ui | Bucket::Bg => 0,
    }
}

/// How long a thread of the bucket may run at a time, and how long a starvation window of its
/// lanes is, in microseconds.
pub fn quantum(b: Bucket) -> u64
    ensures { result ≡ quantum_of b }
{
    match b {
        Bucket::Ui | Bucket::Fg => 10_000,
        Bucket::Ini => 8000,
        Bucket::Df => 6000,
        Bucket::Ut => 4000,
        Bucket::Bg => 2000,
    }
}

/// The times of version 1 in three rows, WCEL, WARP and QUANTUM, each by bucket index, in
/// microseconds.
pub fn version_one() -> [[u64; BUCKET_COUNT]; 3]
    ensures { result ≡ by_bucket wcel_of ∷ by_bucket warp_of ∷ by_bucket quantum_of ∷ [] }
{
    let mut times = [[0; BUCKET_COUNT]; 3];
    crate::each_bucket!(bucket => {
        let column = bucket.index() as usize;
        times[0][column] = wcel(bucket);
        times[1][column] = warp(bucket);
        times[2][column] = quantum(bucket);
    });
    times
}
