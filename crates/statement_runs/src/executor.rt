ghost use Rattle.std.specs.Prelude.{◌≡◌, ◌≤◌, ◌<◌, ℕ, [], IfOk, IfSome, OnOk, length, map, replicate, slice_index_or, slice_set, true, false};
ghost use Rattle.prepared_statements.specs.Kept.{listed};
ghost use Rattle.statement_runs.specs.Database as database;
ghost use Rattle.statement_runs.specs.Database.{Database, empty, cuts, all_cut};
ghost use Rattle.sql_ast.specs.Statements.{statement_tree};
ghost use Rattle.statement_runs.specs.Kept.{StandsFor, waits_in, interrupted_in};
ghost use Rattle.statement_runs.specs.Roles as roles;
ghost use Rattle.statement_runs.specs.Weight.{left, most_left};

use crate::roles::{cancelled_by, misplaced};
use crate::seats::Seats;
use crate::{Options, changed_settings, looks, read_block, role_of};
use out_text::write_fault_text;
use pg_values::{Fault, NoMemory, Refusal};
use prepared_statements::PreparedList;
use schedule::{Tally, leave};
use sessions::{Asker, Executor, Outcome, Place, Role, Settings};
use sql_ast::Statement;
use std::alloc::Global;
use std::mem::replace;

/// The sessions of a run over the stores.
#[derive(Drop)]
pub struct StoreExecutor {
    pub options: Options,
    pub seats: Seats,
    /// What each session has prepared.
    pub prepared: Vec<PreparedList>,
    /// Whose waits statements of others have cancelled, in this order, as long as these have not gone on.
    pub cut: Vec<usize>,
    /// What completed statements have given and read.
    pub tally: Tally,
}

// No session has prepared anything.
fn nothing_prepared(alloc: Global, sessions: usize) -> Result<Vec<PreparedList>, NoMemory>
    ensures { IfOk result (λ lists. map listed lists.items ≡ replicate sessions []) }
{
    let mut lists = Vec::new(alloc);
    for _ in 0..sessions {
        lists.push(PreparedList::new(alloc))?;
    }
    Ok(lists)
}

// What the session has prepared, which is taken.
fn take_list(alloc: Global, lists: &mut Vec<PreparedList>, session: usize) -> PreparedList
    ensures is { listed result ≡ slice_index_or (map listed lists.old.items) session [] }
    ensures taken { map listed lists.new.items ≡ slice_set (map listed lists.old.items) session [] }
{
    let none = PreparedList::new(alloc);
    if session < lists.len() {
        replace(&mut lists[session], none)
    } else {
        none
    }
}

// The sessions whose waits the statement cancels, by what its session has prepared.
fn cancelled_for(
    alloc: Global,
    lists: &[PreparedList],
    session: u32,
    sessions: u32,
    statement: &Statement,
) -> Result<Vec<usize>, NoMemory>
    ensures { IfOk result (λ cut. cut.items ≡ roles.cancelled_by session sessions (slice_index_or (map listed lists.now) session []) (statement_tree statement.now)) }
{
    match lists.get(session as usize) {
        Some(list) => cancelled_by(alloc, session, sessions, list, statement),
        None => {
            let list = PreparedList::new(alloc);
            cancelled_by(alloc, session, sessions, &list, statement)
        }
    }
}

// What it has prepared now.
fn set_list(lists: &mut Vec<PreparedList>, session: usize, list: PreparedList)
    ensures { map listed lists.new.items ≡ slice_set (map listed lists.old.items) session (listed list) }
{
    if session < lists.len() {
        lists[session] = list;
    }
}

impl StoreExecutor {
    /// So many sessions in which nothing has happened.
    pub fn new(alloc: Global, options: Options, sessions: usize) -> Result<Self, NoMemory>
        requires { sessions ≤ 65 }
        ensures stands { IfOk result (λ e. StandsFor e.options e.seats (map listed e.prepared.items) e.cut.items e.tally (empty options sessions)) }
        ensures opened { IfOk result (λ e. e.seats.opened ≡ replicate sessions false) }
        ensures left { IfOk result (λ e. left e.seats e.cut.items ≤ most_left) }
    {
        let seats = Seats::new(alloc, sessions)?;
        let executor = StoreExecutor {
            options,
            seats,
            prepared: nothing_prepared(alloc, sessions)?,
            cut: Vec::new(alloc),
            tally: Tally { rows: 0, reads: 0 },
        };
        executor.weigh();
        Ok(executor)
    }

    // What can still happen before a statement is done is bounded.
    fn weigh(&self)
        ensures { left self.now.seats self.now.cut.items ≤ most_left }
    {
        self.seats.weigh();
    }

    // The wait of the session ends, if it waits, and its statement is to be refused.
    fn interrupt(&mut self, session: usize) -> Result<(), NoMemory>
        ensures options { self.new.options ≡ self.old.options }
        ensures prepared { self.new.prepared ≡ self.old.prepared }
        ensures opened { self.new.seats.opened ≡ self.old.seats.opened }
        ensures rests { self.new.seats.rests ≡ self.old.seats.rests }
        ensures stands { OnOk result ((v : Database) → StandsFor self.old.options self.old.seats (map listed self.old.prepared.items) self.old.cut.items self.old.tally v →
            StandsFor self.new.options self.new.seats (map listed self.new.prepared.items) self.new.cut.items self.new.tally (cuts v session)) }
        ensures others { (s : ℕ) → waits_in self.old.seats s ≡ false → waits_in self.new.seats s ≡ false }
        ensures lower { left self.new.seats self.new.cut.items ≤ left self.old.seats self.old.cut.items }
    {
        if !self.seats.is_waiting(session) {
            return Ok(());
        }
        self.cut.push(session)?;
        self.seats.cancel(session);
        Ok(())
    }

    // Those of these sessions, one after the other.
    fn interrupt_all(&mut self, sessions: &[usize]) -> Result<(), NoMemory>
        ensures options { self.new.options ≡ self.old.options }
        ensures prepared { self.new.prepared ≡ self.old.prepared }
        ensures opened { self.new.seats.opened ≡ self.old.seats.opened }
        ensures rests { self.new.seats.rests ≡ self.old.seats.rests }
        ensures stands { OnOk result ((v : Database) → StandsFor self.old.options self.old.seats (map listed self.old.prepared.items) self.old.cut.items self.old.tally v →
            StandsFor self.new.options self.new.seats (map listed self.new.prepared.items) self.new.cut.items self.new.tally (all_cut v sessions.now)) }
        ensures others { (s : ℕ) → waits_in self.old.seats s ≡ false → waits_in self.new.seats s ≡ false }
        ensures lower { left self.new.seats self.new.cut.items ≤ left self.old.seats self.old.cut.items }
    {
        for session in sessions {
            self.interrupt(*session)?;
        }
        Ok(())
    }
}

fn is_ready(ready: Option<usize>, session: usize) -> bool
    ensures { result ≡ database.is_ready ready session }
{
    match ready {
        Some(first) => first == session,
        None => false,
    }
}

// The first of them whose statement is to be refused.
fn first_cancelled(seats: &Seats, cut: &[usize]) -> Option<usize>
    ensures is { result ≡ interrupted_in seats.now cut.now }
    ensures known { IfSome result (λ s. s < length seats.now.opened) }
    ensures idle { IfSome result (λ s. waits_in seats.now s ≡ false) }
{
    for session in cut {
        if seats.is_cancelled(*session) {
            return Some(*session);
        }
    }
    None
}

impl Executor for StoreExecutor {
    ghost use Rattle.std.specs.Prelude.{None, map, slice_index_or};
    ghost use Rattle.prepared_statements.specs.Kept.{listed};
    ghost use Rattle.sql_ast.specs.Statements.{StatementTree, statement_tree};
    ghost use Rattle.sql_syntax.specs.declared.parse.TheConstants.{MOST_STATEMENTS};
    ghost use Rattle.statement_runs.specs.Database.{Database, course};
    ghost use Rattle.statement_runs.specs.Kept.{StandsFor, waits_in, may_go_on};
    ghost use Rattle.statement_runs.specs.Moments.{Always, AlwaysInOneLeaf, good_always, good_rows};
    ghost use Rattle.statement_runs.specs.ReadMoments.{StatementsAreSound, good_statements};
    ghost use Rattle.statement_runs.specs.Roles.{has_committed};
    ghost use Rattle.statement_runs.specs.Weight as weights;

    type Statement = Statement;

    ghost Tree = { StatementTree };

    ghost tree = { statement_tree };

    ghost State = { Database };

    ghost course = { course };

    ghost stands = { λ e v. StandsFor e.options e.seats (map listed e.prepared.items) e.cut.items e.tally v };

    ghost good = { λ v. AlwaysInOneLeaf v.history × Always StatementsAreSound v.history };

    ghost stands_are_good = { λ e v st. (good_rows v.history st.tells.stands.good, good_always StatementsAreSound good_statements v.history st.tells.stands.good) };

    ghost in_transaction = { λ e. e.seats.opened };

    ghost waiting = { λ e s. waits_in e.seats s };

    ghost due = { λ e s. may_go_on e.seats e.cut.items s };

    ghost has_committed = { λ e s t. has_committed (slice_index_or e.seats.rests s None) t };

    ghost slack = { λ e. weights.left e.seats e.cut.items };

    ghost most = { weights.most_left };

    ghost most_statements = { MOST_STATEMENTS };

    fn sessions(&self) -> usize {
        self.seats.count()
    }

    fn fresh(&self, alloc: Global) -> Result<Self, NoMemory> {
        let options = self.options.copy(alloc)?;
        let mut executor = StoreExecutor::new(alloc, options, self.seats.count())?;
        executor.tally = self.tally;
        Ok(executor)
    }

    fn parse(alloc: Global, text: &[u8]) -> Result<Vec<Statement>, Refusal> {
        read_block(alloc, text)
    }

    fn role(statement: &Statement) -> Role {
        role_of(statement)
    }

    fn looks(statement: &Statement) -> bool {
        looks(statement)
    }

    fn misplaced(
        alloc: Global,
        place: Place,
        statement: &Statement,
    ) -> Result<Option<Fault>, NoMemory> {
        misplaced(alloc, place, statement)
    }

    fn set(alloc: Global, settings: Settings, statement: &Statement) -> Result<Settings, Refusal> {
        changed_settings(alloc, settings, statement)
    }

    fn begin(&mut self, session: usize) -> Result<(), NoMemory> {
        let begun = self.seats.begin(session);
        self.weigh();
        begun
    }

    fn commit(&mut self, session: usize) {
        self.seats.commit(session);
        self.weigh();
    }

    fn abort(&mut self, session: usize) {
        self.seats.abort(session);
        self.weigh();
    }

    fn run(
        &mut self,
        alloc: Global,
        asker: Asker,
        settings: Settings,
        statement: &Statement,
        out: &mut Vec<u8>,
    ) -> Result<Outcome, NoMemory> {
        let sessions = self.seats.count() as u32;
        let session = asker.session as u32;
        let others = cancelled_for(alloc, &self.prepared, session, sessions, statement)?;
        self.interrupt_all(&others)?;
        let mut prepared = take_list(alloc, &mut self.prepared, asker.session);
        let ran = self.seats.run(
            alloc,
            &self.options,
            asker,
            settings,
            &mut prepared,
            statement,
            &mut self.tally,
            out,
        );
        set_list(&mut self.prepared, asker.session, prepared);
        self.weigh();
        ran
    }

    fn interrupted(&self) -> Option<usize> {
        first_cancelled(&self.seats, &self.cut)
    }

    fn ready(&self) -> Option<usize> {
        self.seats.ready()
    }

    fn resume(&mut self, session: usize) {
        let first = first_cancelled(&self.seats, &self.cut);
        if is_ready(first, session) {
            leave(session, &mut self.cut);
            return;
        }
        self.seats.resume(session);
    }

    fn waits(&self, session: usize) -> bool {
        self.seats.waits(session)
    }

    fn oldest(&self) -> Option<usize> {
        self.seats.oldest()
    }

    fn tally(&self) -> Tally {
        self.tally
    }

    fn cancel(&mut self, _alloc: Global, session: usize) {
        self.seats.cancel(session);
    }

    fn write_fault(alloc: Global, fault: &Fault, out: &mut Vec<u8>) -> Result<(), NoMemory> {
        write_fault_text(alloc, fault, out)
    }
}
