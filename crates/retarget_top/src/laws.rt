//! What the promise of `retarget` says of status 0, as a function that only says it.
ghost use Rattle.std.specs.Prelude.{◌≡◌, ℕ, List};
ghost use Rattle.wan_edge.specs.Streams.{SinkTrace, SourceTrace};
ghost use Rattle.text_commands.specs.declared.words.Planner.{Planner};
ghost use Rattle.retarget_top.specs.Elsewhere.{GoesElsewhere};
ghost use Rattle.retarget_top.specs.RetargetPromise.{RetargetPromise};

use disk_model::Disk;

/// Where `retarget` ends with status 0, what was written is the document of a rollout from where the journal says
/// that the first one stands; its journal stands on the disk, and every world of it is safe.
pub fn what_ends_well_goes_elsewhere<D: Disk>()
    ensures { (migration : ℕ) (planner : Planner)
        (shed : List ℕ) (source source_now : SourceTrace) (disk disk_now : D)
        (sink sink_now notes notes_now : SinkTrace) (status : ℕ)
        → RetargetPromise D.told migration planner shed source source_now disk disk_now sink
        sink_now notes notes_now status
        → status ≡ 0
        → GoesElsewhere D.told migration shed source source_now disk disk_now sink sink_now }
{}
