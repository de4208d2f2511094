ghost use Rattle.std.specs.Prelude.{◌≡◌, ◌<◌};

use crate::partscript_run;
use pg_values::{BytesSource, ListSink, NoMemory};
use script_program::{Ended, INPUT_LIMIT};
use std::alloc::Global;

const THREE_ROWS: &str = "setup
{
  CREATE TABLE t (a int) PARTITION BY RANGE (a);
  CREATE TABLE p0 PARTITION OF t FOR VALUES FROM (0) TO (10);
  CREATE TABLE p1 PARTITION OF t FOR VALUES FROM (10) TO (20);
  INSERT INTO t VALUES (9), (10), (19);
}
session s1
step q { SELECT * FROM t WHERE a = 10; }
permutation q
";

const PRINTED: &str = "Parsed test spec with 1 sessions

starting permutation: q
step q: SELECT * FROM t WHERE a = 10;
 a
--
10
(1 row)

";

const REFUSED: &str = "line 1: unexpected token\n";

const USAGE: &str =
    "usage: partscript [--mode run|check|gen|dump] [--today DATE] [--trail] [--seed N]\n";

/// A script that writes to both outputs.
const BOTH: &str = "teardown { DROP TABLE t; }
session s
step q { SELECT 1; }
permutation q
";

const BOTH_PRINTED: &str = "Parsed test spec with 1 sessions

starting permutation: q
step q: SELECT 1;
?column?
--------
       1
(1 row)

";

const BOTH_REFUSED: &str = "teardown of control failed: 42P01 no table t\n";

/// How the objects around a call behave: the calls that fail, the most bytes of each call, and how many
/// bytes the standard output has room for.
#[derive(Clone, Copy)]
struct Around<'a> {
    read_fails: &'a [u64],
    out_fails: &'a [u64],
    out_takes_nothing: &'a [u64],
    err_fails: &'a [u64],
    most: usize,
    room: usize,
    with_a_word: bool,
}

const NO_CALL: &[u64] = &[];

/// What a call answered, and what the sinks took.
#[derive(Drop)]
struct Outcome {
    ended: Ended,
    out: ListSink,
    err: ListSink,
}

impl Outcome {
    fn is(&self, ended: Ended, out: &str, err: &str) -> bool {
        self.ended == ended
            && self.out.bytes() == out.as_bytes()
            && self.err.bytes() == err.as_bytes()
    }

    // A write failed when so many bytes had been printed, and so many told.
    fn is_cut(&self, printed: u64, told: u64) -> bool {
        self.ended == Ended::WriteFault
            && begins(BOTH_PRINTED, self.out.bytes(), printed)
            && begins(BOTH_REFUSED, self.err.bytes(), told)
    }
}

fn begins(whole: &str, taken: &[u8], count: u64) -> bool {
    taken.len() as u64 == count && whole.as_bytes().starts_with(taken)
}

fn call(alloc: Global, script: &[u8], around: &Around<'_>) -> Result<Outcome, NoMemory>
    requires { 0 < around.now.most }
{
    let mut words = Vec::new(alloc);
    if around.with_a_word {
        words.push(String::from_str(alloc, "--mode=walk")?)?;
    }
    let bytes = Vec::from_slice(alloc, script)?;
    let read_fails = Vec::from_slice(alloc, around.read_fails)?;
    let out_fails = Vec::from_slice(alloc, around.out_fails)?;
    let nothing = Vec::from_slice(alloc, around.out_takes_nothing)?;
    let err_fails = Vec::from_slice(alloc, around.err_fails)?;
    let mut source = BytesSource::new(bytes, read_fails, around.most);
    let mut out = ListSink::new(alloc, around.room, out_fails, nothing, around.most)?;
    let mut err = ListSink::new(alloc, 1000, err_fails, Vec::new(alloc), around.most)?;
    let ended = partscript_run(alloc, &words, &mut source, &mut out, &mut err);
    Ok(Outcome { ended, out, err })
}

fn no_fault<'a>(most: usize) -> Around<'a>
    ensures { result.most ≡ most }
{
    Around {
        read_fails: NO_CALL,
        out_fails: NO_CALL,
        out_takes_nothing: NO_CALL,
        err_fails: NO_CALL,
        most,
        room: 1000,
        with_a_word: false,
    }
}

#[test]
fn a_script_is_run_and_a_wrong_one_refused(rt: HostRuntime) {
    let alloc = rt.alloc();
    let ran = call(alloc, THREE_ROWS.as_bytes(), &no_fault(7)).expect(&rt, "memory");
    assert!(rt; ran.is(Ended::Done, PRINTED, ""));
    let by_single_bytes = call(alloc, THREE_ROWS.as_bytes(), &no_fault(1)).expect(&rt, "memory");
    assert!(rt; by_single_bytes.is(Ended::Done, PRINTED, ""));
    let refused = call(alloc, b"", &no_fault(7)).expect(&rt, "memory");
    assert!(rt; refused.is(Ended::ScriptRefused, "", REFUSED));
}

#[test]
fn a_word_is_refused(rt: HostRuntime) {
    let mut around = no_fault(7);
    around.with_a_word = true;
    let usage = call(rt.alloc(), THREE_ROWS.as_bytes(), &around).expect(&rt, "memory");
    assert!(rt; usage.is(Ended::Usage, "", USAGE));
}

#[test]
fn a_failed_write_ends_the_call(rt: HostRuntime) {
    let alloc = rt.alloc();
    let mut around = no_fault(1);
    around.out_fails = &[2];
    let failed = call(alloc, THREE_ROWS.as_bytes(), &around).expect(&rt, "memory");
    assert!(rt; failed.is(Ended::WriteFault, "Pa", ""));
    around = no_fault(7);
    around.out_takes_nothing = &[1];
    let failed = call(alloc, THREE_ROWS.as_bytes(), &around).expect(&rt, "memory");
    assert!(rt; failed.is(Ended::WriteFault, "Parsed ", ""));
    around = no_fault(7);
    around.room = 8;
    let failed = call(alloc, THREE_ROWS.as_bytes(), &around).expect(&rt, "memory");
    assert!(rt; failed.is(Ended::WriteFault, "Parsed t", ""));
    around = no_fault(7);
    around.err_fails = &[1];
    let failed = call(alloc, b"", &around).expect(&rt, "memory");
    assert!(rt; failed.is(Ended::WriteFault, "", "line 1:"));
}

// The last read that is made is the one that brings the first byte past the limit.
#[test]
fn a_long_input_is_refused_and_a_failed_read_within_it(rt: HostRuntime) {
    let alloc = rt.alloc();
    let mut around = no_fault(7);
    around.read_fails = &[1];
    let failed = call(alloc, THREE_ROWS.as_bytes(), &around).expect(&rt, "memory");
    assert!(rt; failed.is(Ended::ReadFault, "", "read failed\n"));
    let mut long = vec![in alloc; b' '; INPUT_LIMIT].expect(&rt, "memory");
    let refused = call(alloc, &long, &no_fault(4096)).expect(&rt, "memory");
    assert!(rt; refused.is(Ended::ScriptRefused, "", REFUSED));
    long.push(b' ').expect(&rt, "memory");
    let mut around = no_fault(4096);
    around.read_fails = &[1025];
    let large = call(alloc, &long, &around).expect(&rt, "memory");
    assert!(rt; large.is(Ended::TooLarge, "", "input over 4194304 bytes\n"));
}

// One byte is read or written at a time, so that each has a call of its own: the script has 72 bytes, and a last read
// finds the end; 112 bytes are printed, and 45 told.
#[test]
fn each_failed_read_and_write_is_answered(rt: HostRuntime) {
    let alloc = rt.alloc();
    for read in 0..73_u64 {
        let fails = [read];
        let mut around = no_fault(1);
        around.read_fails = &fails;
        let failed = call(alloc, BOTH.as_bytes(), &around).expect(&rt, "memory");
        assert!(rt; failed.is(Ended::ReadFault, "", "read failed\n"));
    }
    for write in 0..112_u64 {
        let fails = [write];
        let mut around = no_fault(1);
        around.out_fails = &fails;
        let failed = call(alloc, BOTH.as_bytes(), &around).expect(&rt, "memory");
        assert!(rt; failed.is_cut(write, 0));
        around = no_fault(1);
        around.out_takes_nothing = &fails;
        let failed = call(alloc, BOTH.as_bytes(), &around).expect(&rt, "memory");
        assert!(rt; failed.is_cut(write, 0));
    }
    for write in 0..45_u64 {
        let fails = [write];
        let mut around = no_fault(1);
        around.err_fails = &fails;
        let failed = call(alloc, BOTH.as_bytes(), &around).expect(&rt, "memory");
        assert!(rt; failed.is_cut(112, write));
    }
    let mut around = no_fault(1);
    around.read_fails = &[73];
    around.out_fails = &[112];
    around.err_fails = &[45];
    let whole = call(alloc, BOTH.as_bytes(), &around).expect(&rt, "memory");
    assert!(rt; whole.is(Ended::ScriptRefused, BOTH_PRINTED, BOTH_REFUSED));
}
