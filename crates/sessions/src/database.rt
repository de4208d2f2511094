ghost use Rattle.std.specs.Prelude.{◌≡◌, ◌≤◌, false, IfOk, length, replicate};
ghost use Rattle.sessions.specs.Sessions as spec;
ghost use Rattle.sessions.specs.Whole.{StandsFor, count};

use crate::session::Session;
use crate::transactions::roll_back;
use crate::turns::turn;
use crate::{Executor, Sessions};
use pg_values::{Fault, NoMemory, Refusal};
use schedule::{BlockKind, Database, Progress, Tally};
use std::alloc::Global;

fn new_sessions<T: Drop>(alloc: Global, count: usize) -> Result<Vec<Session<T>>, NoMemory>
    ensures { IfOk result (λ xs. xs.items ≡ replicate count spec.new_session) }
{
    let mut sessions = Vec::with_capacity(alloc, count)?;
    for _ in 0..count {
        sessions.push(Session::new(alloc))?;
    }
    Ok(sessions)
}

impl<E: Executor> Sessions<E> {
    /// Sessions that have run nothing, over an executor in which nothing has happened.
    pub fn new(alloc: Global, executor: E) -> Result<Self, NoMemory>
        requires idle { E.in_transaction executor ≡ replicate (length (E.in_transaction executor)) false }
        requires bounded { E.slack executor ≤ E.most }
        ensures stands { IfOk result (λ s. (v : E.State) → E.stands executor v → StandsFor E.Executor s (record { executor = v; sessions = replicate (length (E.in_transaction executor)) spec.new_session })) }
        ensures count { IfOk result (λ s. count E.Executor s ≡ length (E.in_transaction executor)) }
    {
        let sessions = new_sessions(alloc, executor.sessions())?;
        Ok(Sessions { executor, sessions })
    }
}

impl<E: Executor> Database for Sessions<E> {
    ghost use Rattle.std.specs.Prelude.{ℕ, ◌+◌, ◌*◌};
    ghost use Rattle.sessions.specs.Sessions.{State, rules_of};
    ghost use Rattle.sessions.specs.Whole.{GoodIn, StandsFor, count, weight_in};

    ghost State = { State E.State E.Tree };

    ghost rules = { rules_of E.course };

    ghost stands = { StandsFor E.Executor };

    ghost good = { GoodIn E.Executor };

    ghost stands_are_good = { λ d v st. E.stands_are_good d.executor v.executor st.executor };

    ghost count = { count E.Executor };

    ghost waiting = { λ d s. E.waiting d.executor s };

    ghost due = { λ d s. E.due d.executor s };

    ghost weight = { weight_in E.Executor };

    ghost cost = { (3 * E.most_statements + 3) * (E.most + 1) };

    fn sessions(&self) -> usize {
        self.sessions.len()
    }

    fn fresh(&self, alloc: Global) -> Result<Self, NoMemory> {
        let executor = self.executor.fresh(alloc)?;
        let sessions = new_sessions(alloc, self.executor.sessions())?;
        Ok(Sessions { executor, sessions })
    }

    fn begin(
        &mut self,
        alloc: Global,
        session: usize,
        kind: BlockKind,
        text: &[u8],
    ) -> Result<(), NoMemory> {
        match E::parse(alloc, text) {
            Ok(statements) => self.sessions[session].take_block(alloc, kind, statements),
            Err(Refusal::Sql(fault)) => self.sessions[session].take_broken(alloc, kind, fault),
            Err(Refusal::NoMemory) => return Err(NoMemory),
        }
        Ok(())
    }

    fn step(&mut self, alloc: Global, session: usize) -> Result<Progress, NoMemory> {
        turn(
            alloc,
            &mut self.executor,
            session,
            &mut self.sessions[session],
        )
    }

    fn interrupted(&self) -> Option<usize> {
        self.executor.interrupted()
    }

    fn ready(&self) -> Option<usize> {
        self.executor.ready()
    }

    fn resume(&mut self, session: usize) {
        self.executor.resume(session);
    }

    fn waits(&self, session: usize) -> bool {
        self.executor.waits(session)
    }

    fn oldest(&self) -> Option<usize> {
        self.executor.oldest()
    }

    fn tally(&self) -> Tally {
        self.executor.tally()
    }

    fn cancel(&mut self, alloc: Global, session: usize) {
        self.executor.cancel(alloc, session);
    }

    fn roll_back(&mut self, session: usize) {
        roll_back(&mut self.executor, session, &mut self.sessions[session]);
    }

    fn report(&self, session: usize) -> &[u8] {
        self.sessions[session].told()
    }

    fn fault(&self, session: usize) -> Option<&Fault> {
        self.sessions[session].fault()
    }

    fn write_fault(alloc: Global, fault: &Fault, out: &mut Vec<u8>) -> Result<(), NoMemory> {
        E::write_fault(alloc, fault, out)
    }
}
