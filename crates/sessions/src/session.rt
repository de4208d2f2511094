ghost use Rattle.std.specs.Prelude.{◌≡◌, [], true, None, Ok, Err, OnOk, OnErr, option_copied};
ghost use Rattle.sessions.specs.Sessions as spec;
ghost use Rattle.sessions.specs.declared.phase.Phase.TheVariants as phases;

use crate::{Asker, Phase, Place, Settings};
use pg_values::{Fault, Isolation, NoMemory};
use schedule::BlockKind;
use std::alloc::Global;
use std::marker::Model;

/// A session. What is left of its block stands with the next statement last.
#[derive(Drop)]
pub(crate) struct Session<T> {
    pub(crate) phase: Phase,
    pub(crate) level: Isolation,
    pub(crate) looked: bool,
    pub(crate) settings: Settings,
    pub(crate) saved: Settings,
    pub(crate) kind: BlockKind,
    pub(crate) alone: bool,
    pub(crate) in_block: bool,
    pub(crate) rest: Vec<T>,
    pub(crate) broken: Option<Fault>,
    pub(crate) told: Vec<u8>,
    pub(crate) fault: Option<Fault>,
}

impl<T> Model for Session<T> {
    ghost use Rattle.std.specs.Prelude.{reverse};
    ghost use Rattle.sessions.specs.Sessions.{SessionView};

    ghost Value = { SessionView T };

    ghost view = { λ x. record { phase = x.phase; level = x.level; looked = x.looked; settings = x.settings; saved = x.saved; kind = x.kind; alone = x.alone; in_block = x.in_block; rest = reverse x.rest.items; broken = x.broken; told = x.told.items; fault = x.fault } };
}

impl<T: Drop> Session<T> {
    /// Nothing has happened yet.
    pub(crate) fn new(alloc: Global) -> Self
        ensures { result ≡ spec.new_session }
    {
        Session {
            phase: Phase::Idle,
            level: Isolation::ReadCommitted,
            looked: false,
            settings: Settings::defaults(),
            saved: Settings::defaults(),
            kind: BlockKind::Setup,
            alone: false,
            in_block: false,
            rest: Vec::new(alloc),
            broken: None,
            told: Vec::new(alloc),
            fault: None,
        }
    }

    pub(crate) fn asker(&self, session: usize) -> Asker
        ensures { result ≡ spec.asker_of session self.now }
    {
        Asker {
            session,
            level: self.level,
            kind: self.kind,
        }
    }

    pub(crate) fn place(&self) -> Place
        ensures { result ≡ spec.place_of self.now }
    {
        Place {
            explicit: self.phase == Phase::Explicit,
            alone: self.alone,
        }
    }

    /// Whether it has a transaction that has not failed.
    pub(crate) fn has_open(&self) -> bool
        ensures { result ≡ spec.has_open self.now.phase }
    {
        match self.phase {
            Phase::Implicit | Phase::Explicit => true,
            Phase::Idle | Phase::Failed => false,
        }
    }

    /// A block begins.
    pub(crate) fn take_block(&mut self, alloc: Global, kind: BlockKind, statements: Vec<T>)
        ensures { self.new ≡ spec.with_block self.old kind (Ok statements.items) }
    {
        self.alone = statements.len() == 1;
        self.rest = statements;
        self.rest.reverse();
        self.broken = None;
        self.begin_block(alloc, kind);
    }

    /// A block begins that is none of SQL.
    pub(crate) fn take_broken(&mut self, alloc: Global, kind: BlockKind, fault: Fault)
        ensures { self.new ≡ spec.with_block self.old kind (Err fault) }
    {
        self.alone = false;
        self.rest = Vec::new(alloc);
        self.broken = Some(fault);
        self.begin_block(alloc, kind);
    }

    fn begin_block(&mut self, alloc: Global, kind: BlockKind)
        ensures { self.new ≡ record self.old { kind = kind; in_block = true; told = []; fault = None } }
    {
        self.kind = kind;
        self.in_block = true;
        self.told = Vec::new(alloc);
        self.fault = None;
    }

    /// Why the block is none of SQL, if it is none.
    pub(crate) fn why_broken(&mut self) -> Option<Fault>
        ensures fault { result ≡ self.old.broken }
        ensures rest { self.new ≡ record self.old { broken = None } }
    {
        self.broken.take()
    }

    /// What the block has printed.
    pub(crate) fn told(&self) -> &[u8]
        ensures { result.now ≡ self.now.told }
    {
        &self.told
    }

    /// Why the block has failed, if it has.
    pub(crate) fn fault(&self) -> Option<&Fault>
        ensures { option_copied result ≡ self.now.fault }
    {
        self.fault.as_ref()
    }

    /// The next statement of the block, taken from its front.
    pub(crate) fn take_next(&mut self) -> Option<T>
        ensures next { result ≡ spec.head_of self.old.rest }
        ensures rest { self.new ≡ record self.old { rest = spec.tail self.old.rest } }
    {
        self.rest.pop()
    }

    /// The statement is still to be done.
    pub(crate) fn keep(&mut self, statement: T) -> Result<(), NoMemory>
        ensures ok { OnOk result (self.new ≡ spec.kept self.old statement) }
        ensures err { OnErr result (self.new ≡ self.old) }
    {
        self.rest.push(statement)?;
        Ok(())
    }

    /// A statement of its transaction is done.
    pub(crate) fn done(&mut self, looks: bool)
        ensures { self.new ≡ spec.done self.old looks }
    {
        self.looked = self.looked || looks;
    }

    /// It has a transaction from now on.
    pub(crate) fn begin(&mut self, phase: Phase, level: Isolation)
        ensures { self.new ≡ spec.opened self.old phase level }
    {
        self.phase = phase;
        self.level = level;
        self.looked = false;
        self.saved = self.settings;
    }

    /// Its transaction failed.
    pub(crate) fn fail(&mut self, fault: Fault)
        ensures { self.new ≡ spec.failed self.old fault }
    {
        self.take_settings_back();
        self.phase = match self.phase {
            Phase::Idle | Phase::Implicit => Phase::Idle,
            Phase::Explicit | Phase::Failed => Phase::Failed,
        };
        self.rest.clear();
        self.in_block = false;
        self.fault = Some(fault);
    }

    /// What it has open is rolled back.
    pub(crate) fn roll_back(&mut self)
        ensures { self.new ≡ spec.back self.old }
    {
        self.take_settings_back();
        self.phase = Phase::Idle;
    }

    fn take_settings_back(&mut self)
        ensures { self.new ≡ record self.old { settings = spec.settings_back self.old.settings self.old.saved (spec.has_open self.old.phase) } }
    {
        if self.has_open() {
            self.settings = self.saved;
        }
    }
}
