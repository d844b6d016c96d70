ghost use Rattle.std.specs.Prelude.{◌≡◌, ◌<◌, ◌≤◌, [], ◌∷◌, ◌++◌, length, take, false, None, Some, IfErr, IfOk, IsTrue, OnErr, OnOk};
ghost use Rattle.wan_edge.specs.Frames.{IsCutAnswer};
ghost use Rattle.port_session.specs.Reading.{IsOfBytes, ReadsAnswers, answers_of, fresh_stream, reckoned};

use crate::SessionFault;
use lists::{Many, Memory};
use std::marker::Model;
use wire_frames::{Answer, AnswerReader};

/// Answers, in the order in which they were heard.
pub type AnswerList = Many<Answer>;

/// Where one stands in the answers of a port, which come in pieces: the front of the answer that hasn't
/// ended, whether all before it was read, and how many answers are awaited still.
#[derive(Debug, Drop)]
pub(crate) struct AnswerStream {
    reader: AnswerReader,
    live: bool,
    awaited: usize,
}

impl Model for AnswerStream {
    ghost use Rattle.std.specs.Prelude.{IsTrue};
    ghost use Rattle.wan_edge.specs.Frames.{IsCutAnswer};
    ghost use Rattle.port_session.specs.Reading.{Stream};

    ghost Value = { Stream };

    ghost view = { λ s. record { kept = s.reader.kept; live = s.live; awaited = s.awaited } };

    ghost invariant = { λ s. IsTrue s.live → IsTrue s.reader.live × IsCutAnswer s.reader.kept };
}

impl AnswerStream {
    pub(crate) fn new() -> Self
        ensures new { result ≡ fresh_stream }
        ensures cut { IsCutAnswer result.kept }
    {
        AnswerStream {
            reader: AnswerReader::new(),
            live: true,
            awaited: 0,
        }
    }

    pub(crate) fn live(&self) -> bool
        ensures { result ≡ self.now.live }
    {
        self.live
    }

    pub(crate) fn count_awaited(&self) -> usize
        ensures { result ≡ self.now.awaited }
    {
        self.awaited
    }

    /// From now on so many answers are awaited.
    pub(crate) fn expect(&mut self, count: usize)
        ensures { self.new ≡ record self.old { awaited = count } }
    {
        self.awaited = count;
    }

    /// Reads the answers that end in the piece, and tells those of the migration.
    pub(crate) fn read(
        &mut self,
        piece: &[u8],
        migration: u32,
        answers: &mut AnswerList,
    ) -> Result<(), SessionFault>
        requires live { IsTrue self.old.live }
        ensures ok { OnOk result
            (ReadsAnswers migration (reckoned self.old answers.old) piece.now None
            (reckoned self.new answers.new)) }
        ensures err { IfErr result
            (λ fault. ReadsAnswers migration (reckoned self.old answers.old) piece.now (Some fault)
            (reckoned self.new answers.new)) }
        ensures own { IfErr result IsOfBytes }
        ensures live { OnOk result (IsTrue self.new.live) }
        ensures cut { OnOk result (IsCutAnswer self.new.kept) }
        ensures dead { OnErr result (self.new.live ≡ false) }
    {
        self.live = false;
        read_piece(
            &mut self.reader,
            &mut self.awaited,
            piece,
            migration,
            answers,
        )?;
        self.live = true;
        Ok(())
    }
}

// Reads the answers that end in the piece, one after the other.
fn read_piece(
    reader: &mut AnswerReader,
    awaited: &mut usize,
    piece: &[u8],
    migration: u32,
    answers: &mut AnswerList,
) -> Result<(), SessionFault>
    requires live { IsTrue reader.old.live }
    requires cut { IsCutAnswer reader.old.kept }
    ensures ok { OnOk result
        (ReadsAnswers migration
        (record { kept = reader.old.kept; awaited = awaited.old; told = answers.old }) piece.now
        None (record { kept = reader.new.kept; awaited = awaited.new; told = answers.new })) }
    ensures err { IfErr result
        (λ fault. ReadsAnswers migration
        (record { kept = reader.old.kept; awaited = awaited.old; told = answers.old }) piece.now
        (Some fault)
        (record { kept = reader.new.kept; awaited = awaited.new; told = answers.new })) }
    ensures own { IfErr result IsOfBytes }
    ensures live { OnOk result (IsTrue reader.new.live) }
    ensures cut { OnOk result (IsCutAnswer reader.new.kept) }
{
    let mut rest = piece;
    while !rest.is_empty() {
        let n = read_next(reader, awaited, rest, migration, answers)?;
        rest = &rest[n..];
    }
    Ok(())
}

// Reads the piece up to the end of one answer, and says how many bytes that took.
fn read_next(
    reader: &mut AnswerReader,
    awaited: &mut usize,
    piece: &[u8],
    migration: u32,
    answers: &mut AnswerList,
) -> Result<usize, SessionFault>
    requires live { IsTrue reader.old.live }
    requires some { 0 < length piece.now }
    ensures taken { IfOk result (λ n. (0 < n) × (n ≤ length piece.now)) }
    ensures ok { IfOk result
        (λ n. ReadsAnswers migration
        (record { kept = reader.old.kept; awaited = awaited.old; told = answers.old })
        (take n piece.now) None
        (record { kept = reader.new.kept; awaited = awaited.new; told = answers.new })) }
    ensures err { IfErr result
        (λ fault. ReadsAnswers migration
        (record { kept = reader.old.kept; awaited = awaited.old; told = answers.old }) piece.now
        (Some fault)
        (record { kept = reader.new.kept; awaited = awaited.new; told = answers.new })) }
    ensures own { IfErr result IsOfBytes }
    ensures live { OnOk result (IsTrue reader.new.live) }
    ensures cut { OnOk result (IsCutAnswer reader.new.kept) }
{
    let (n, found) = reader.feed(piece)?;
    if let Some(frame) = found {
        tell(&frame, migration, answers)?;
        *awaited = awaited.saturating_sub(1);
    }
    Ok(n)
}

// Adds the answer where it is of the migration. Lack of memory changes nothing.
#[tactic(auto, unfolding(crate::specs::Reading::answers_of))]
fn tell(frame: &(u32, Answer), migration: u32, answers: &mut AnswerList) -> Result<(), Memory>
    ensures ok { OnOk result (answers.new ≡ answers.old ++ answers_of migration (frame.now ∷ [])) }
    ensures err { OnErr result ((answers.new ≡ answers.old) × (frame.now.0 ≡ migration)) }
{
    if frame.0 == migration {
        answers.push(frame.1)?;
    }
    Ok(())
}
