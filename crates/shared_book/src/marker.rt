ghost use Rattle.std.specs.Prelude.{ℕ};
ghost use Rattle.disk_model.specs.Traces.{DiskTrace};
ghost use Rattle.shared_book.specs.Histories.{Opening};
ghost use Rattle.wan_edge.specs.Frames.{Answer};

use std::marker::Brand;

/// Names one opening of a book, by ghost members alone: what is known to be of one marker was opened with
/// this.
pub trait Marker {
    /// The rollout, the policy's answers, and the start with the list found.
    ghost opening: { Opening };

    /// The moment of the disk at the end of the opening.
    ghost moment: { ℕ };

    /// How often the disk had failed by then.
    ghost faults: { ℕ };

    /// What the disk told at the end of the opening.
    ghost stood: { DiskTrace };

    /// How many seats may call.
    ghost seats: { ℕ };

    /// In which migration its commands go out.
    ghost migration: { ℕ };

    /// Which answers the ports of the rollout have told. No round takes another.
    ghost heard: { Answer → Type 0 };
}

// The members that stand where no call picks others.
impl Marker for Brand {
    ghost use Rattle.shared_book.specs.Images.{nothing_stood};
    ghost use Rattle.shared_book.specs.Worked.{of_one};

    ghost opening = { of_one };

    ghost moment = { 0 };

    ghost faults = { 0 };

    ghost stood = { nothing_stood };

    ghost seats = { 1 };

    ghost migration = { 0 };

    ghost heard = { λ a. Unit {0} };
}
