//! A cluster by itself.

use cluster_queue::ClusterQueue;
use flat_policy::cluster::Cluster;
use flat_policy::setup::Setup;
use plain_cluster::PlainCluster;
use std::alloc::Global;
use std::process::Abort;
use std::test::Fail;

// It is on until it is turned off, and its last moment never goes back.
fn without_entries<K: Cluster>(rt: &impl Abort, alloc: Global) -> Result<(), Fail> {
    let setup = Setup::build(alloc, &[[1, 1000]], &[], &[[0; 6]], 8, 1)?;
    let mut cluster = K::new(alloc, &setup, 0)?;
    let is_on = cluster.is_on();
    let reserved = cluster.reserve().is_ok();
    cluster.touch(500);
    cluster.turn(false, 400);
    let told = (is_on, cluster.is_on(), cluster.len(), cluster.last());
    let spare = cluster.spare();
    cluster.end();
    assert_eq!(rt; told, (true, false, 0, 500));
    assert_eq!(rt; (reserved, spare), (true, 1));
    Ok(())
}

#[test]
fn a_cluster_without_entries(rt: HostRuntime) -> Result<(), Fail> {
    without_entries::<PlainCluster>(&rt, rt.alloc())?;
    without_entries::<ClusterQueue>(&rt, rt.alloc())
}
