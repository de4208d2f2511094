ghost use Rattle.std.specs.Prelude.{◌≡◌, ◌≤◌, ◌<◌, ℕ, ◌+◌, ◌∷◌, [], true, false, if◌then◌else◌, Some, None, Ok, IfOk, IfSome, OnOk, OnErr, length, option_map, replicate, slice_index_or, slice_set};
ghost use Rattle.history.specs.History.{History};
ghost use Rattle.pg_values.specs.Sets.{has};
ghost use Rattle.schedule.specs.Lists.{head_of};
ghost use Rattle.sessions.specs.declared.outcome.Outcome.TheVariants as outcomes;
ghost use Rattle.sql_ast.specs.Statements.{statement_tree};
ghost use Rattle.prepared_statements.specs.Kept.{listed};
ghost use Rattle.stores.specs.Events.{begun, committed, aborted, let_go, withdrawn, resumed};
ghost use Rattle.statement_runs.specs.Database as database;
ghost use Rattle.statement_steps.specs.Made as made;
ghost use Rattle.statement_runs.specs.Kept.{Adds, AreSeated, AreSessions, TellOf, due_in, waits_in};
ghost use Rattle.statement_runs.specs.Ran.{attempt_at, given_at, prepared_by, waits_by, HasRun};
ghost use Rattle.statement_runs.specs.Tallies.{added};
ghost use Rattle.statement_runs.specs.Weight.{slack, most};

use crate::attempts::attempt;
use crate::{COMMAND_LIMIT, Options};
use history::{WaitOn, Wanted};
use pg_values::{Fault, Isolation, NoMemory, SessionSet, Which};
use prepared_statements::PreparedList;
use refusals::{statement_cancelled, too_many};
use schedule::{Tally, leave};
use sessions::{Asker, Outcome, Settings};
use sql_ast::Statement;
use statement_steps::{Caller, Ending, Rest, Stop};
use std::alloc::Global;
use std::marker::Model;
use stores::Stores;

/// The stores, and how far the sessions of a run are.
///
/// `opened` tells which sessions have a transaction, `commands` how many commands of it were tried,
/// `cancelled` whose wait was cancelled, `rests` where a statement stands that waits in the middle of its
/// run, and `moved` since whose last step something was given up; `queue` are those that wait, the oldest
/// wait first, and `ready` the first of them whose causes have gone. Where memory ran out inside of a
/// statement the stores are not `whole`, and nothing more is run.
#[derive(Drop)]
pub struct Seats {
    pub(crate) stores: Stores,
    pub(crate) opened: Vec<bool>,
    pub(crate) commands: Vec<u32>,
    pub(crate) cancelled: Vec<bool>,
    pub(crate) rests: Vec<Option<Rest>>,
    pub(crate) moved: Vec<bool>,
    pub(crate) queue: Vec<usize>,
    pub(crate) ready: Option<u32>,
    pub(crate) whole: bool,
}

impl Model for Seats {
    ghost use Rattle.std.specs.Coded.{codes};
    ghost use Rattle.statement_steps.specs.Codes.{asked_code, cond_code, found_code, left_code, scalar_code, table_code};
    ghost use Rattle.statement_runs.specs.Codes.{rest_code, seats_code};
    ghost use Rattle.statement_runs.specs.Kept.{KeptSeats, AreKept};

    ghost Value = { KeptSeats };

    ghost coded = { seats_code (Prim.hlevel codes) (rest_code (left_code (Prim.hlevel codes)
        (found_code (Prim.hlevel codes) (table_code (Prim.hlevel codes) (Prim.hlevel codes) (Prim.hlevel codes) (Prim.hlevel codes)) (Prim.hlevel codes)
        (asked_code (scalar_code (Prim.hlevel codes) (Prim.hlevel codes) (Prim.hlevel codes)) (cond_code (Prim.hlevel codes) (Prim.hlevel codes) (Prim.hlevel codes))) (Prim.hlevel codes))
        (Prim.hlevel codes)) (Prim.hlevel codes)) };

    ghost view = { λ e. record { stores = e.stores; opened = e.opened.items; commands = e.commands.items; cancelled = e.cancelled.items; rests = e.rests.items; moved = e.moved.items; queue = e.queue.items; ready = e.ready; whole = e.whole } };

    ghost invariant = { λ e. AreKept (record { stores = e.stores; opened = e.opened.items; commands = e.commands.items; cancelled = e.cancelled.items; rests = e.rests.items; moved = e.moved.items; queue = e.queue.items; ready = e.ready; whole = e.whole }) };
}

// No statement stands in the middle of its run.
fn nothing_left(alloc: Global, sessions: usize) -> Result<Vec<Option<Rest>>, NoMemory>
    ensures { IfOk result (λ rests. rests.items ≡ replicate sessions None) }
{
    let mut rests = Vec::new(alloc);
    for _ in 0..sessions {
        rests.push(None)?;
    }
    Ok(rests)
}

// What is left to the session's statement, which is taken.
fn take_rest(rests: &mut Vec<Option<Rest>>, session: usize) -> Option<Rest>
    requires { session < length rests.old.items }
    ensures is { result ≡ slice_index_or rests.old.items session None }
    ensures taken { rests.new.items ≡ slice_set rests.old.items session None }
{
    rests[session].take()
}

// What is left to it now.
fn set_rest(rests: &mut Vec<Option<Rest>>, session: usize, rest: Option<Rest>)
    requires { session < length rests.old.items }
    ensures { rests.new.items ≡ slice_set rests.old.items session rest }
{
    rests[session] = rest;
}

fn flag_at(flags: &[bool], session: usize) -> bool
    requires { session < length flags.now }
    ensures { result ≡ slice_index_or flags.now session false }
{
    flags[session]
}

fn mark_all(flags: &mut [bool])
    ensures { flags.new ≡ replicate (length flags.old) true }
{
    flags.fill(true);
}

// The sessions of a set are numbers below 128.
fn sessions_are_low(set: SessionSet)
    ensures { (s : ℕ) → has set s ≡ true → s < 128 }
{}

// Whoever is waited for is a session.
fn named_are_sessions(wanted: Option<Wanted>)
    ensures { IfSome wanted AreSessions }
{
    match wanted {
        Some(Wanted::Others(WaitOn::Ends(of))) => sessions_are_low(of),
        Some(Wanted::Others(WaitOn::Snapshots(of))) => sessions_are_low(of),
        Some(Wanted::Lock { .. }) | None => (),
    }
}

fn number_at(numbers: &[u32], session: usize) -> u32
    requires { session < length numbers.now }
    ensures { result ≡ slice_index_or numbers.now session 0 }
{
    numbers[session]
}

// The number under which a command goes on that waits.
fn number_after(rest: &Option<Rest>, next: u32, own: u32) -> u32
    requires { next ≡ own + 1 }
    ensures { result ≡ made.number_after rest.now own }
{
    match rest {
        Some(_) => next,
        None => own,
    }
}

// Why a statement is refused first, and not attempted.
fn refused_first(alloc: Global, cancelled: bool, cmd: u32) -> Result<Option<Fault>, NoMemory>
    ensures is { IfOk result (λ f. f ≡ database.refused_first cancelled cmd) }
    ensures free { IfOk result (λ f. f ≡ None → (cancelled ≡ false) × (cmd < 4294967294)) }
{
    if cancelled {
        return Ok(Some(statement_cancelled(alloc)));
    }
    if cmd < COMMAND_LIMIT {
        return Ok(None);
    }
    let fault = too_many(alloc, Which::Commands)?;
    Ok(Some(fault))
}

impl Seats {
    /// So many sessions in which nothing has happened.
    pub(crate) fn new(alloc: Global, sessions: usize) -> Result<Self, NoMemory>
        requires { sessions ≤ 65 }
        ensures whole { IfOk result (λ e. e.whole ≡ true) }
        ensures tells { IfOk result (λ e. TellOf e []) }
        ensures opened { IfOk result (λ e. e.opened ≡ replicate sessions false) }
        ensures commands { IfOk result (λ e. e.commands ≡ replicate sessions 0) }
        ensures cancelled { IfOk result (λ e. e.cancelled ≡ replicate sessions false) }
        ensures rests { IfOk result (λ e. e.rests ≡ replicate sessions None) }
    {
        let stores = Stores::new(alloc, sessions as u32, 4096)?;
        let ready = stores.locks.ready();
        Ok(Seats {
            stores,
            opened: vec![in alloc; false; sessions]?,
            commands: vec![in alloc; 0; sessions]?,
            cancelled: vec![in alloc; false; sessions]?,
            rests: nothing_left(alloc, sessions)?,
            moved: vec![in alloc; false; sessions]?,
            queue: Vec::new(alloc),
            ready,
            whole: true,
        })
    }

    /// The session's transaction begins.
    pub(crate) fn begin(&mut self, session: usize) -> Result<(), NoMemory>
        requires known { session < length self.old.opened }
        requires closed { slice_index_or self.old.opened session true ≡ false }
        ensures adds { OnOk result (Adds self.old self.new (λ h. begun h session)) }
        ensures opened { OnOk result (self.new.opened ≡ slice_set self.old.opened session true) }
        ensures commands { OnOk result (self.new.commands ≡ slice_set self.old.commands session 0) }
        ensures cancelled { self.new.cancelled ≡ self.old.cancelled }
        ensures rests { self.new.rests ≡ self.old.rests }
        ensures waits { waits_in self.new session ≡ waits_in self.old session }
        ensures err { OnErr result (self.new ≡ self.old) }
    {
        if !self.whole {
            return Err(NoMemory);
        }
        self.stores.begin(session as u32)?;
        self.opened[session] = true;
        self.commands[session] = 0;
        Ok(())
    }

    /// It is committed.
    pub(crate) fn commit(&mut self, session: usize)
        requires known { session < length self.old.opened }
        requires open { slice_index_or self.old.opened session false ≡ true }
        ensures adds { Adds self.old self.new (λ h. committed h session) }
        ensures opened { self.new.opened ≡ slice_set self.old.opened session false }
        ensures commands { self.new.commands ≡ self.old.commands }
        ensures cancelled { self.new.cancelled ≡ self.old.cancelled }
        ensures rests { self.new.rests ≡ self.old.rests }
        ensures idle { waits_in self.new session ≡ false }
    {
        self.opened[session] = false;
        if !self.whole {
            return;
        }
        self.stores.commit(session as u32);
        mark_all(&mut self.moved);
        leave(session, &mut self.queue);
        self.ready = self.stores.locks.ready();
    }

    /// It is aborted.
    pub(crate) fn abort(&mut self, session: usize)
        requires known { session < length self.old.opened }
        requires open { slice_index_or self.old.opened session false ≡ true }
        ensures adds { Adds self.old self.new (λ h. aborted h session) }
        ensures opened { self.new.opened ≡ slice_set self.old.opened session false }
        ensures commands { self.new.commands ≡ self.old.commands }
        ensures cancelled { self.new.cancelled ≡ self.old.cancelled }
        ensures rests { self.new.rests ≡ self.old.rests }
        ensures idle { waits_in self.new session ≡ false }
    {
        self.opened[session] = false;
        if !self.whole {
            return;
        }
        self.stores.abort(session as u32);
        mark_all(&mut self.moved);
        leave(session, &mut self.queue);
        self.ready = self.stores.locks.ready();
    }

    /// The wait of the session is over, and it holds the lock that it waited for, if it was one.
    pub(crate) fn resume(&mut self, session: usize)
        requires known { session < length self.old.opened }
        requires due { due_in self.old session ≡ true }
        ensures adds { Adds self.old self.new (λ h. resumed session) }
        ensures opened { self.new.opened ≡ self.old.opened }
        ensures commands { self.new.commands ≡ self.old.commands }
        ensures cancelled { self.new.cancelled ≡ self.old.cancelled }
        ensures rests { self.new.rests ≡ self.old.rests }
        ensures idle { waits_in self.new session ≡ false }
        ensures lower { slack self.new < slack self.old }
    {
        named_are_sessions(self.stores.locks.wanted(session as u32));
        self.stores.resume(session as u32);
        self.moved[session] = false;
        leave(session, &mut self.queue);
        self.ready = self.stores.locks.ready();
    }

    /// The wait of the session is cancelled.
    pub(crate) fn cancel(&mut self, session: usize)
        requires known { session < length self.old.opened }
        requires waiting { waits_in self.old session ≡ true }
        ensures adds { Adds self.old self.new (λ h. withdrawn session) }
        ensures opened { self.new.opened ≡ self.old.opened }
        ensures commands { self.new.commands ≡ self.old.commands }
        ensures cancelled { self.new.cancelled ≡ slice_set self.old.cancelled session true }
        ensures rests { self.new.rests ≡ self.old.rests }
        ensures idle { waits_in self.new session ≡ false }
        ensures others { (s : ℕ) → waits_in self.old s ≡ false → waits_in self.new s ≡ false }
        ensures lower { slack self.new < slack self.old }
    {
        self.stores.withdraw(session as u32);
        leave(session, &mut self.queue);
        self.cancelled[session] = true;
        self.ready = self.stores.locks.ready();
    }

    /// Whether the session's statement is to be refused, since its wait was cancelled.
    pub(crate) fn is_cancelled(&self, session: usize) -> bool
        ensures is { result ≡ slice_index_or self.now.cancelled session false }
        ensures known { result ≡ true → session < length self.now.opened }
        ensures idle { result ≡ true → waits_in self.now session ≡ false }
    {
        match self.cancelled.get(session) {
            Some(flag) => *flag,
            None => false,
        }
    }

    /// How many sessions there are.
    pub(crate) fn count(&self) -> usize
        ensures is { result ≡ length self.now.opened }
        ensures few { result ≤ 65 }
    {
        self.opened.len()
    }

    /// What can still happen before a statement is done is bounded.
    pub(crate) fn weigh(&self)
        ensures slack { slack self.now ≤ most }
        ensures few { length self.now.opened ≤ 65 }
    {
        let _ = self.opened.len();
    }

    /// The oldest wait whose causes have gone.
    pub(crate) fn ready(&self) -> Option<usize>
        ensures is { self.now.whole ≡ true → result ≡ self.now.ready }
        ensures known { IfSome result (λ s. s < length self.now.opened) }
        ensures due { IfSome result (λ s. due_in self.now s ≡ true) }
    {
        match self.ready {
            Some(session) if self.whole => Some(session as usize),
            _ => None,
        }
    }

    /// The oldest wait.
    pub(crate) fn oldest(&self) -> Option<usize>
        ensures is { self.now.whole ≡ true → result ≡ head_of self.now.queue }
        ensures known { IfSome result (λ s. s < length self.now.opened) }
        ensures waiting { IfSome result (λ s. waits_in self.now s ≡ true) }
    {
        if !self.whole {
            return None;
        }
        match self.queue.first() {
            Some(session) => Some(*session),
            None => None,
        }
    }

    /// Whether the session waits.
    pub(crate) fn waits(&self, session: usize) -> bool
        requires { session < length self.now.opened }
        ensures { result ≡ waits_in self.now session }
    {
        self.whole && self.stores.locks.wanted(session as u32).is_some()
    }

    /// Whether there is such a session that waits.
    pub(crate) fn is_waiting(&self, session: usize) -> bool
        ensures is { result ≡ waits_in self.now session }
        ensures known { result ≡ true → session < length self.now.opened }
    {
        if session < self.opened.len() {
            self.waits(session)
        } else {
            false
        }
    }

    // A statement is done. Where it has stood in the middle of its run, the snapshot is given up that it
    // has held, unless its transaction keeps it.
    fn give_up(&mut self, level: Isolation, session: usize, has_stood: bool)
        requires known { session < length self.old.opened }
        requires whole { self.old.whole ≡ true }
        requires free { waits_in self.old session ≡ false }
        ensures adds { Adds self.old self.new (λ h. if has_stood then database.let_go_at level session else []) }
        ensures opened { self.new.opened ≡ self.old.opened }
        ensures commands { self.new.commands ≡ self.old.commands }
        ensures cancelled { self.new.cancelled ≡ self.old.cancelled }
        ensures rests { self.new.rests ≡ self.old.rests }
        ensures idle { waits_in self.new session ≡ false }
    {
        if !has_stood {
            return;
        }
        match level {
            Isolation::RepeatableRead => {}
            Isolation::ReadCommitted => self.let_go(session),
            Isolation::ReadUncommitted => self.let_go(session),
        }
    }

    // The session gives up the snapshot that it holds.
    fn let_go(&mut self, session: usize)
        requires known { session < length self.old.opened }
        requires whole { self.old.whole ≡ true }
        ensures adds { Adds self.old self.new (λ h. let_go session) }
        ensures opened { self.new.opened ≡ self.old.opened }
        ensures commands { self.new.commands ≡ self.old.commands }
        ensures cancelled { self.new.cancelled ≡ self.old.cancelled }
        ensures rests { self.new.rests ≡ self.old.rests }
        ensures waits { waits_in self.new session ≡ waits_in self.old session }
    {
        self.stores.let_go(session as u32);
        mark_all(&mut self.moved);
        self.ready = self.stores.locks.ready();
    }

    /// A statement of the session is run from its beginning, or from where it stood, up to its end or to a
    /// wait, and what it gives and reads is counted. One whose wait was cancelled is refused, and one whose
    /// transaction has had `COMMAND_LIMIT` commands.
    pub(crate) fn run(
        &mut self,
        alloc: Global,
        options: &Options,
        asker: Asker,
        settings: Settings,
        prepared: &mut PreparedList,
        statement: &Statement,
        tally: &mut Tally,
        out: &mut Vec<u8>,
    ) -> Result<Outcome, NoMemory>
        requires known { asker.session < length self.old.opened }
        requires open { slice_index_or self.old.opened asker.session false ≡ true }
        requires free { waits_in self.old asker.session ≡ false }
        ensures ran { IfOk result (λ o. (h : History) → TellOf self.old h →
            HasRun (attempt_at options.now self.old asker h settings (listed prepared.old) (statement_tree statement.now)) asker self.old self.new out.old.items out.new.items o h) }
        ensures tally { IfOk result (λ o. (h : History) → TellOf self.old h → tally.new ≡ added tally.old (given_at options.now self.old asker h settings (listed prepared.old) (statement_tree statement.now))) }
        ensures prepared { IfOk result (λ o. listed prepared.new ≡ prepared_by o (listed prepared.old) (statement_tree statement.now)) }
        ensures opened { self.new.opened ≡ self.old.opened }
        ensures waits { IfOk result (λ o. waits_in self.new asker.session ≡ waits_by o) }
        ensures lower { result ≡ Ok outcomes.Waits → slack self.new ≤ slack self.old }
        ensures heard { OnOk result ((h : History) × TellOf self.old h × AreSeated self.old) }
        ensures strides { result ≡ Ok outcomes.Goes → ⊥ }
    {
        if !self.whole {
            return Err(NoMemory);
        }
        let session = asker.session;
        let sessions = self.count() as u32;
        let cmd = number_at(&self.commands, session);
        let cancelled = flag_at(&self.cancelled, session);
        let refusal = refused_first(alloc, cancelled, cmd)?;
        if let Some(fault) = refusal {
            self.cancelled[session] = false;
            self.rests[session] = None;
            return Ok(Outcome::Refused(fault));
        }
        let next = cmd + 1;
        let caller = Caller {
            session: session as u32,
            sessions,
            level: asker.level,
            cmd,
            kind: asker.kind,
        };
        let rest = take_rest(&mut self.rests, session);
        let has_stood = rest.is_some();
        let answer = attempt(
            alloc,
            &mut self.stores,
            options,
            caller,
            rest,
            settings,
            prepared,
            statement,
            tally,
            out,
        );
        self.ready = self.stores.locks.ready();
        match answer {
            Ok(ending) => {
                self.commands[session] = next;
                match ending {
                    Ending::Done => {
                        self.give_up(asker.level, session, has_stood);
                        Ok(Outcome::Done)
                    }
                    Ending::Commits(rest) => {
                        set_rest(&mut self.rests, session, Some(Rest::Detach(rest)));
                        Ok(Outcome::Commits)
                    }
                }
            }
            Err(Stop::Waits(rest)) => {
                self.commands[session] = number_after(&rest, next, cmd);
                set_rest(&mut self.rests, session, rest);
                if self.queue.push(session).is_err() {
                    self.whole = false;
                    return Err(NoMemory);
                }
                Ok(Outcome::Waits)
            }
            Err(Stop::Refused(fault)) => {
                self.commands[session] = next;
                Ok(Outcome::Refused(fault))
            }
            Err(Stop::NoMemory) => {
                self.whole = false;
                Err(NoMemory)
            }
        }
    }
}
