use crate::adapters::{InputSource, OutputSink};
use pg_values::{Sink, Source};

#[test]
fn the_real_input_ends(rt: HostRuntime) {
    let mut input = InputSource::new(rt.stdin());
    let mut buffer = [0u8; 16];
    assert!(rt; matches!(input.read(&mut buffer), Ok(0)));
}

#[test]
fn the_real_output_takes_bytes(rt: HostRuntime) {
    let mut out = OutputSink::new(rt.stdout());
    assert!(rt; matches!(out.write(b"out\n"), Ok(4)));
    assert!(rt; matches!(out.write(b""), Ok(0)));
}

#[test]
fn the_real_error_takes_bytes(rt: HostRuntime) {
    let mut err = OutputSink::new(rt.stderr());
    assert!(rt; matches!(err.write(b"err\n"), Ok(4)));
}
