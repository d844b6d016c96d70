//! That a journal may be read while its controller appends to it, without a lock: the laws, each as a function
//! with an empty body.
//!
//! The reader takes the bytes in order of offset, so what it has read is of many moments. Up to the gate that it
//! meets closed it has read what stood there at the moment at which it met that gate, since nothing before a
//! gate is ever written again in a part; and after a closed gate nothing counts. So what was read is the
//! journal as it stood at one of these moments ([`what_is_read_meanwhile_was_there_once`]), by what it keeps,
//! by how a rollout judges it and by what is reported of it. That the writes of an append go on so are the other
//! two laws: what they write after the gate leaves the list as it is, and the gate is opened last.
//!
//! Nothing here is said of a recovery that begins meanwhile: it lays the list in another part, and the slots in
//! front change. The words are in `specs/`: `Watching` for moments and readers, `Kept` for what is the same.
ghost use Rattle.std.specs.Prelude.{◌+◌, ◌⊎◌, ℕ, List, length};
ghost use Rattle.disk_model.specs.Writes.{Torn, written};
ghost use Rattle.intent_journal.specs.States.{Home, IsAtRest, IsBody};
ghost use Rattle.rollout_report.specs.Kept.{AreOneJournal};
ghost use Rattle.rollout_report.specs.Watching.{AreMoments, AreReadFrom, HasGoneOn, HeldOnce, Moment};

/// What is read of a journal in order of offset, from its first byte to its end and without a lock, while its
/// controller appends to it, is the journal as it stood at some moment meanwhile.
pub fn what_is_read_meanwhile_was_there_once()
    ensures { (home : Home) (moments : List Moment) (bytes : List ℕ)
        → AreMoments home moments
        → AreReadFrom 0 moments bytes
        → HeldOnce (AreOneJournal bytes) moments }
{}

/// Whatever has come of the bytes of a batch that are being written after the closed gate, the journal has gone
/// on from where it stood, with the same gate.
pub fn a_batch_is_written_behind_the_gate()
    ensures { (home : Home) (stood : Moment) (batch : List (List ℕ)) (body image : List ℕ)
        → IsAtRest home stood.gate stood.image
        → IsBody home stood.gate batch body
        → Torn (stood.gate + 1) (length body) stood.image image
        → HasGoneOn home stood (record { image = image; gate = stood.gate }) }
{}

/// Whatever has come of the gate that is opened then, the journal has gone on: with the same gate, or with the
/// one after the batch.
pub fn its_gate_is_opened_last()
    ensures { (home : Home) (stood : Moment) (batch : List (List ℕ)) (body image : List ℕ)
        → IsAtRest home stood.gate stood.image
        → IsBody home stood.gate batch body
        → Torn stood.gate 1 (written (stood.gate + 1) body stood.image) image
        → HasGoneOn home stood (record { image = image; gate = stood.gate })
        ⊎ HasGoneOn home stood (record { image = image; gate = stood.gate + length body }) }
{}
