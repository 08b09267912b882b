//! A law of looks. It is the contract of a function that does nothing.

ghost use Rattle.migration.specs.Laws.{AimGoesByClusters};

/// Looks past the clusters of a setup decide nothing: an aim by the looks at its clusters alone is
/// that by all of them.
pub fn aim_goes_by_clusters()
    ensures { AimGoesByClusters }
{}
