//! Sources and sinks that move a byte at a time, or fail.
use super::replies::{DENSE, DENSE_REPLIES};
use super::streams::{StepSink, StepSource};
use iddqd_lines::serve::{ServeFault, serve};
use iddqd_lines::sink::Sink;
use iddqd_lines::source::Source;
use std::alloc::Global;
use std::process::Abort;

// The program ends so, and has written this.
fn assert_served(
    rt: &impl Abort,
    alloc: Global,
    source: &mut StepSource<'_>,
    sink: &mut StepSink,
    want: (Result<(), ServeFault>, &str),
) {
    let (end, text) = want;
    assert!(rt; !source.failed() && !sink.failed());
    let answer = serve(alloc, source, sink);
    assert!(rt; answer == end, "{answer:?}");
    let replies = sink.taken();
    assert!(rt; replies == text.as_bytes(), "{replies:?}");
}

#[test]
fn a_failed_read_ends_it_after_the_replies_to_whole_lines(rt: HostRuntime) {
    let mut source = StepSource::new(b"insert 1 10 100\nge", 8192, true);
    let mut sink = StepSink::new(rt.alloc(), 8192);
    let want = (Err(ServeFault::Read), "inserted 0\n");
    assert_served(&rt, rt.alloc(), &mut source, &mut sink, want);
}

#[test]
fn a_failed_write_ends_it(rt: HostRuntime) {
    let input = b"insert 1 10 100\ninsert 2 20 200\n";
    let mut source = StepSource::new(input, 8192, false);
    let mut sink = StepSink::new(rt.alloc(), 0);
    let want = (Err(ServeFault::Write), "");
    assert_served(&rt, rt.alloc(), &mut source, &mut sink, want);
}

#[test]
fn lines_are_answered_a_byte_at_a_time(rt: HostRuntime) {
    for write_step in [1, 8192] {
        let mut source = StepSource::new(DENSE.as_bytes(), 1, false);
        let mut sink = StepSink::new(rt.alloc(), write_step);
        let want = (Ok(()), DENSE_REPLIES);
        assert_served(&rt, rt.alloc(), &mut source, &mut sink, want);
    }
}
