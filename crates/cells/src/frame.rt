//! What a run is given, made ready to be looked up.
ghost use Rattle.std.specs.Prelude.{◌≡◌, ◌==◌, ◌<◌, [], ℕ, IfOk, OnOk, find, length, map, replicate};
ghost use Rattle.std.specs.BTreeMap.{get};
ghost use Rattle.std.specs.Option.{option_map};
ghost use Rattle.std.specs.Ordering.{nat_cmp};
ghost use Rattle.edge_matrix.specs.EdgeTables.{edges_of};
ghost use Rattle.flat_policy.specs.Policy.Setup.{actor_count, cluster_count, home_of, migrates, steal_mask};
ghost use Rattle.flat_policy.specs.declared.texts.Power.{Power};
ghost use Rattle.flat_policy.specs.declared.texts.ProgramLine.{ProgramLine};
ghost use Rattle.flat_policy.specs.Runs.Worker.{program_of as program_named};
ghost use Rattle.trace_text.specs.Runs.{power_of, program_of};
ghost use Rattle.cells.specs.Frames.{AreByTurn, AreRunnable, power_told, with_power};

use crate::run_name::RunName;
use edge_matrix::Edges;
use flat_policy::setup::Setup;
use flat_policy::texts::{Power, ProgramLine};
use std::alloc::{AllocError, Global};
use std::collections::BTreeMap;
use std::marker::{Model, PhantomData};

/// What an offer goes by: the cluster that asks, whether threads move along the edge to it, and the mask of that edge.
#[derive(Clone, Copy)]
pub(crate) struct Along {
    pub(crate) to: u8,
    pub(crate) rebalance: bool,
    pub(crate) mask: u8,
}

/// The setup, the edges, the programs by name and the powers by turn of a run. Contracts see for how many numbered turns
/// powers are told.
#[derive(Drop)]
pub(crate) struct Frame<N: RunName> {
    setup: Setup,
    edges: Edges,
    programs: BTreeMap<u32, ProgramLine>,
    // Those of each numbered turn, in their order.
    powers: Vec<Vec<Power>>,
    run: PhantomData<N>,
}

impl<N: RunName> Model for Frame<N> {
    ghost use Rattle.std.specs.Prelude.{ℕ, length, map};
    ghost use Rattle.cells.specs.Frames.{IsFrame};

    ghost Value = { ℕ };

    ghost view = { λ f. length f.powers.items };

    ghost invariant = { λ f. IsFrame N.setup N.programs N.powers (record {
      setup = f.setup;
      edges = f.edges;
      programs = f.programs.entries;
      powers = map (λ row. row.items) f.powers.items;
    }) };
}

impl<N: RunName> Frame<N> {
    /// Makes what a run is given ready for a number of numbered turns. Powers of later turns are left out. `AllocError` is want
    /// of memory.
    pub(crate) fn new(
        alloc: Global,
        setup: Setup,
        programs: Vec<ProgramLine>,
        powers: Vec<Power>,
        turns: u32,
    ) -> Result<Frame<N>, AllocError>
        requires setup { setup ≡ N.setup }
        requires programs { map program_of programs.items ≡ N.programs }
        requires runnable { AreRunnable N.setup N.programs }
        requires powers { 0 < turns → map power_of powers.items ≡ N.powers }
        ensures { IfOk result (λ f. f ≡ turns) }
    {
        let edges = Edges::of(&setup);
        let named = by_name(alloc, &programs)?;
        let told = by_turn(alloc, &powers, turns)?;
        Ok(Frame {
            setup,
            edges,
            programs: named,
            powers: told,
            run: PhantomData,
        })
    }

    /// Does nothing. It tells a proof what every frame keeps: the programs of its run may run.
    pub(crate) fn keeps(&self)
        ensures { AreRunnable N.setup N.programs }
    {
        let _setup = &self.setup;
    }

    /// The setup.
    pub(crate) fn setup(&self) -> &Setup
        ensures { result.now ≡ N.setup }
    {
        &self.setup
    }

    /// The edges of the setup.
    pub(crate) fn edges(&self) -> &Edges
        ensures { result.now ≡ edges_of N.setup }
    {
        &self.edges
    }

    /// What an offer from a cluster to the actor's home goes by.
    pub(crate) fn along(&self, actor: u8, c: u8) -> Along
        requires actor { actor < actor_count N.setup }
        requires there { c < cluster_count N.setup }
        ensures home { result.to ≡ home_of N.setup actor }
        ensures edge { result.rebalance ≡ migrates N.setup c (home_of N.setup actor) }
        ensures mask { result.mask ≡ steal_mask N.setup c (home_of N.setup actor) }
    {
        self.setup.keeps_ranges();
        let home = self.setup.home(actor);
        Along {
            to: home,
            rebalance: self.edges.migrate(c, home),
            mask: self.edges.steal(c, home),
        }
    }

    /// The program of a name.
    pub(crate) fn program(&self, name: u32) -> Option<ProgramLine>
        ensures { option_map program_of result ≡ program_named N.programs name }
    {
        self.programs.get(&name).copied()
    }

    /// Whether a cluster is turned on or off by its first actor in a turn; `None` where it is neither, and for a turn that
    /// powers aren't told for.
    pub(crate) fn power(&self, cluster: u8, turn: u32) -> Option<bool>
        ensures { result ≡ power_told N.powers self.now cluster turn }
    {
        let at = turn as usize;
        if at < self.powers.len() {
            power_among(&self.powers[at], cluster)
        } else {
            None
        }
    }
}

// Programs by name. Where some had one name, the first of them would stay: they go in from the last to the first.
fn by_name(
    alloc: Global,
    programs: &[ProgramLine],
) -> Result<BTreeMap<u32, ProgramLine>, AllocError>
    ensures { IfOk result (λ named. (name : ℕ) → get nat_cmp named name ≡ find (λ (p : ProgramLine). p.name == name) programs.now) }
{
    let mut named = BTreeMap::new(alloc);
    for k in (0..programs.len()).rev() {
        let program = programs[k];
        named.insert(program.name, program)?;
    }
    Ok(named)
}

// The power of a cluster, among those of a turn.
fn power_among(powers: &[Power], cluster: u8) -> Option<bool>
    ensures { result ≡ option_map (λ (p : Power). p.on) (find (λ (p : Power). p.cluster == cluster) powers.now) }
{
    powers.iter().find(|p| p.cluster == cluster).map(|p| p.on)
}

// Powers by turn, for so many turns.
fn by_turn(alloc: Global, powers: &[Power], turns: u32) -> Result<Vec<Vec<Power>>, AllocError>
    ensures turns { IfOk result (λ rows. length rows.items ≡ turns) }
    ensures each { IfOk result (λ rows. AreByTurn powers.now (map (λ row. row.items) rows.items)) }
{
    let mut rows = empty_rows(alloc, turns)?;
    for power in powers {
        put_power(&mut rows, *power)?;
    }
    Ok(rows)
}

// So many rows with nothing in them.
fn empty_rows(alloc: Global, turns: u32) -> Result<Vec<Vec<Power>>, AllocError>
    ensures { IfOk result (λ rows. map (λ row. row.items) rows.items ≡ replicate turns []) }
{
    let mut rows = Vec::new(alloc);
    for _ in 0..turns {
        rows.push(Vec::new(alloc))?;
    }
    Ok(rows)
}

// Puts a power at the end of the row of its turn, where there is one.
fn put_power(rows: &mut Vec<Vec<Power>>, power: Power) -> Result<(), AllocError>
    ensures { OnOk result (map (λ row. row.items) rows.new.items ≡ with_power power (map (λ row. row.items) rows.old.items)) }
{
    let at = power.turn as usize;
    if at < rows.len() {
        rows[at].push(power)?;
    }
    Ok(())
}
