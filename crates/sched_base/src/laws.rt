//! What is true of the constants, as contracts of functions that do nothing.

ghost use Rattle.std.specs.Prelude.{◌≡◌};
ghost use Rattle.sched_base.specs.Limits.{bucket_count, lane_count, most_clusters, most_actors, most_groups, most_threads, most_edges, most_spans, most_base, clusters_of_lines, least_rate, most_rate, most_weight, steal_masks, most_wcel, most_warp, least_quantum, most_quantum, moment_limit, tick, most_span, most_run_work, most_turns, setup_bytes, line_bytes, input_bytes, piece_bytes};

use crate::limits::{
    BUCKET_COUNT, CLUSTERS_OF_LINES, INPUT_BYTES, LANE_COUNT, LEAST_QUANTUM, LEAST_RATE,
    LINE_BYTES, MOMENT_LIMIT, MOST_ACTORS, MOST_BASE, MOST_CLUSTERS, MOST_EDGES, MOST_GROUPS,
    MOST_QUANTUM, MOST_RATE, MOST_RUN_WORK, MOST_SPAN, MOST_SPANS, MOST_THREADS, MOST_TURNS,
    MOST_WARP, MOST_WCEL, MOST_WEIGHT, PIECE_BYTES, SETUP_BYTES, STEAL_MASKS, TICK,
};

/// Each constant of `limits` is the number of its name in `specs/`.
pub fn constants_are_the_limits()
    ensures bucket_count { BUCKET_COUNT ≡ bucket_count }
    ensures lane_count { LANE_COUNT ≡ lane_count }
    ensures most_clusters { MOST_CLUSTERS ≡ most_clusters }
    ensures most_actors { MOST_ACTORS ≡ most_actors }
    ensures most_groups { MOST_GROUPS ≡ most_groups }
    ensures most_threads { MOST_THREADS ≡ most_threads }
    ensures most_edges { MOST_EDGES ≡ most_edges }
    ensures most_spans { MOST_SPANS ≡ most_spans }
    ensures most_base { MOST_BASE ≡ most_base }
    ensures clusters_of_lines { CLUSTERS_OF_LINES ≡ clusters_of_lines }
    ensures least_rate { LEAST_RATE ≡ least_rate }
    ensures most_rate { MOST_RATE ≡ most_rate }
    ensures most_weight { MOST_WEIGHT ≡ most_weight }
    ensures steal_masks { STEAL_MASKS ≡ steal_masks }
    ensures most_wcel { MOST_WCEL ≡ most_wcel }
    ensures most_warp { MOST_WARP ≡ most_warp }
    ensures least_quantum { LEAST_QUANTUM ≡ least_quantum }
    ensures most_quantum { MOST_QUANTUM ≡ most_quantum }
    ensures moment_limit { MOMENT_LIMIT ≡ moment_limit }
    ensures tick { TICK ≡ tick }
    ensures most_span { MOST_SPAN ≡ most_span }
    ensures most_run_work { MOST_RUN_WORK ≡ most_run_work }
    ensures most_turns { MOST_TURNS ≡ most_turns }
    ensures setup_bytes { SETUP_BYTES ≡ setup_bytes }
    ensures line_bytes { LINE_BYTES ≡ line_bytes }
    ensures input_bytes { INPUT_BYTES ≡ input_bytes }
    ensures piece_bytes { PIECE_BYTES ≡ piece_bytes }
{}
