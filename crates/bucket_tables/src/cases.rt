//! Macros that go through the buckets and the lanes, case by case.

/// Repeats a statement for the six buckets, the highest first, inside a function's body:
/// `each_bucket!(bucket => statement)`. In the statement `bucket`, or whichever name is given,
/// is the bucket, and a proof knows which one it is.
#[macro_export]
macro_rules! each_bucket {
    ($bucket:ident => $work:expr) => {
        $crate::each_bucket!($bucket => $work; Ui, Fg, Ini, Df, Ut, Bg)
    };
    ($bucket:ident => $work:expr; $($variant:ident),*) => {{
        $({
            let $bucket = $crate::Bucket::$variant;
            $work;
        })*
    }};
}

/// Repeats a statement for the ten timeshare lanes, the highest first, inside a function's body:
/// `each_lane!(lane => statement)`. A bucket's bound lane comes before its unbound one. In the
/// statement `lane`, or whichever name is given, is the lane, and a proof knows which one it is.
#[macro_export]
macro_rules! each_lane {
    ($lane:ident => $work:expr) => {
        $crate::each_lane!($lane => $work; Fg, Ini, Df, Ut, Bg)
    };
    ($lane:ident => $work:expr; $($variant:ident),*) => {{
        $(
            {
                let $lane = $crate::Lane { bucket: $crate::Bucket::$variant, bound: true };
                $work;
            }
            {
                let $lane = $crate::Lane { bucket: $crate::Bucket::$variant, bound: false };
                $work;
            }
        )*
    }};
}
