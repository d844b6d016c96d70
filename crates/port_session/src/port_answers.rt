ghost use Rattle.std.specs.Prelude.{◌≡◌, [], ◌∷◌, ◌++◌, All, OnErr, OnOk};
ghost use Rattle.port_session.specs.Standing.{HasTold, WasHeard};

use crate::stream::AnswerList;
use lists::Memory;
use std::alloc::Global;
use std::marker::{Model, PhantomData};
use wan_edge::Port;
use wire_frames::Answer;

/// The answers of one migration that ports of this kind have told. An answer is put in
/// after the moment at which its port had told the whole of it, by a session or with that port at hand.
pub struct PortAnswers<T: Port> {
    pub(crate) migration: u32,
    pub(crate) answers: AnswerList,
    of: PhantomData<T>,
}

impl<T: Port> Model for PortAnswers<T> {
    ghost use Rattle.std.specs.Prelude.{All};
    ghost use Rattle.port_session.specs.Standing.{HeardAnswers, WasHeard};

    ghost Value = { HeardAnswers };

    ghost view = { λ h. record { migration = h.migration; answers = h.answers } };

    ghost invariant = { λ h. All (λ a. WasHeard T.told (h.migration, a)) h.answers };
}

impl<T: Port> Drop for PortAnswers<T> {
    fn drop(self) {
        let PortAnswers {
            migration: _,
            answers: _,
            of: _,
        } = self;
    }
}

impl<T: Port> PortAnswers<T> {
    /// No answer yet.
    pub fn new(alloc: Global, migration: u32) -> Self
        ensures { result ≡ record { migration = migration; answers = [] } }
    {
        PortAnswers {
            migration,
            answers: AnswerList::new(alloc),
            of: PhantomData,
        }
    }

    /// Adds an answer that this port has told whole. Lack of memory changes nothing.
    pub fn add(&mut self, port: &T, answer: Answer) -> Result<(), Memory>
        requires { HasTold (T.told port.now) (self.old.migration, answer) }
        ensures migration { self.new.migration ≡ self.old.migration }
        ensures ok { OnOk result (self.new.answers ≡ self.old.answers ++ answer ∷ []) }
        ensures err { OnErr result (self.new.answers ≡ self.old.answers) }
    {
        let _told = port;
        self.answers.push(answer)?;
        Ok(())
    }

    /// The answers, in the order in which they were heard. Each was told whole by a port of this kind.
    pub fn answers(&self) -> &[Answer]
        ensures answers { result.now ≡ self.now.answers }
        ensures heard { All (λ a. WasHeard T.told (self.now.migration, a)) self.now.answers }
    {
        self.answers.as_slice()
    }
}
