// Documents and sessions of which it is known that they break no rule: whoever is handed one has nothing to check.
ghost use Rattle.std.specs.Prelude.{◌≡◌, false};
ghost use Rattle.machine.specs.Broken.{broken};
ghost use Rattle.machine.specs.Sound.{Sound};

use crate::{Document, Session, State};

// A document whose tables obey the rules of loading.
#[derive(Clone, Copy)]
pub struct SoundDocument {
    pub document: Document,
    pub ghost sound: { Sound document },
}

// A session that is not broken.
#[derive(Clone, Copy)]
pub struct UnbrokenSession {
    pub document: SoundDocument,
    pub state: State,
    pub ghost unbroken: { broken (record { document = document.document; state = state }) ≡ false },
}

impl UnbrokenSession {
    ghost use Rattle.machine.specs.Sessions.{session_of};

    pub fn new(session: Session) -> UnbrokenSession
        requires { broken session ≡ false }
        ensures { session_of result ≡ session }
    {
        UnbrokenSession {
            document: SoundDocument {
                document: session.document,
            },
            state: session.state,
        }
    }

    // The state takes the place of the one before.
    pub fn set_state(&mut self, state: State)
        requires { broken (record { document = self.old.document.document; state = state }) ≡ false }
        ensures { session_of self.new ≡ record { document = self.old.document.document; state = state } }
    {
        self.state = state;
    }
}

impl From<UnbrokenSession> for Session {
    ghost use Rattle.machine.specs.Sessions.{session_of};

    ghost from_gives = { λ unbroken session. session ≡ session_of unbroken };

    fn from(unbroken: UnbrokenSession) -> Session {
        Session {
            document: unbroken.document.document,
            state: unbroken.state,
        }
    }
}
