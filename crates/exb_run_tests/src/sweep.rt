//! Whole runs of which each call of shelf and sink is disturbed in turn: it fails, wants memory, or
//! moves fewer bytes than it could. The status is the one that this means, what is printed is its
//! line or a front of the summary, and each file that the run makes is absent, as it was, or a
//! front of what the undisturbed run writes, and holds all that the shelf took for it. Where
//! nothing failed all is whole.
mod runs;

use crate::compare::{holds, same_status};
use crate::hex::bytes_of;
use crate::runs::play;
use exb_test_shelf::{Call, CallKind, Disturbance, FaultyShelf, FaultySink};
use runs::{BARE, LOSSY, NET, ONE, Run, TREE};
use std::alloc::Global;
use std::process::Abort;

/// Files that are no outputs of any of the runs.
const OTHERS: [&str; 3] = ["journal.txt", "out-counters.txt", "out-x64.64.pcap"];

/// What the outputs hold before a run, where they are there.
const BEFORE: &str =
    "This was here before, and is longer than most of what is written in its place.";

/// A run, and the text that each of its outputs holds before it; none is there where that is empty.
#[derive(Clone, Copy)]
struct SweptRun<'a> {
    run: &'a Run,
    before: &'a str,
}

/// What came of a run.
#[derive(Drop)]
struct RunResult {
    shelf: FaultyShelf,
    out: FaultySink,
    status: u8,
}

// Puts a text under each of these names.
fn put_all(rt: &impl Abort, shelf: &mut FaultyShelf, names: &[&str], text: &str) {
    for name in names {
        shelf.put(name, text.as_bytes()).expect(rt, "memory");
    }
}

// Puts texts there, each behind its name.
fn put_texts(rt: &impl Abort, shelf: &mut FaultyShelf, texts: &[(&str, &str)]) {
    for (name, text) in texts {
        shelf.put(name, text.as_bytes()).expect(rt, "memory");
    }
}

// Puts a capture there in hexadecimal.
fn put_capture(rt: &impl Abort, alloc: Global, shelf: &mut FaultyShelf, name: &str, capture: &str) {
    let capture = bytes_of(rt, alloc, capture);
    shelf.put(name, capture.as_slice()).expect(rt, "memory");
}

// Puts captures there, each behind its name.
fn put_captures(
    rt: &impl Abort,
    alloc: Global,
    shelf: &mut FaultyShelf,
    captures: &[(&str, &str)],
) {
    for (name, capture) in captures {
        put_capture(rt, alloc, shelf, name, capture);
    }
}

// A shelf with the files of a run, and what was there before it.
fn shelf_of(rt: &impl Abort, alloc: Global, site: SweptRun<'_>, how: Disturbance) -> FaultyShelf {
    let mut shelf = FaultyShelf::new(alloc, how);
    put_texts(rt, &mut shelf, site.run.texts);
    put_all(rt, &mut shelf, &OTHERS, BEFORE);
    if !site.before.is_empty() {
        put_all(rt, &mut shelf, site.run.outputs, site.before);
    }
    put_captures(rt, alloc, &mut shelf, site.run.captures);
    shelf
}

// Plays a run, where the calls of the shelf and those of the sink are disturbed.
fn play_site(
    rt: &impl Abort,
    alloc: Global,
    site: SweptRun<'_>,
    of_shelf: Disturbance,
    of_sink: Disturbance,
) -> RunResult {
    let mut shelf = shelf_of(rt, alloc, site, of_shelf);
    let mut out = FaultySink::new(alloc, of_sink);
    let status = play(rt, alloc, site.run.words, &mut shelf, &mut out);
    RunResult { shelf, out, status }
}

/// The status that a disturbance means at a call, and the line that is printed then.
fn answer_to<'a>(run: &'a Run, asked: CallKind, how: Disturbance) -> (u8, &'a str) {
    match how {
        Disturbance::Fails { .. } | Disturbance::Stops { .. } => match asked {
            CallKind::Open | CallKind::Read => (6, "exbr: read fault\n"),
            CallKind::Create | CallKind::Append | CallKind::Finish => (7, "exbr: write fault\n"),
            CallKind::Print => (7, run.summary),
        },
        Disturbance::WantsMemory { .. } => match asked {
            CallKind::Print => (1, run.summary),
            _ => (1, "exbr: out of memory\n"),
        },
        _ => (0, run.summary),
    }
}

/// A run beside the same one that nothing disturbed, and the files before it.
#[derive(Drop)]
struct SweepBench<'a> {
    alloc: Global,
    site: SweptRun<'a>,
    first: FaultyShelf,
    whole: RunResult,
}

impl<'a> SweepBench<'a> {
    fn new(rt: &impl Abort, alloc: Global, run: &'a Run, before: &'a str) -> SweepBench<'a> {
        let site = SweptRun { run, before };
        let bench = SweepBench {
            alloc,
            site,
            first: shelf_of(rt, alloc, site, Disturbance::Quiet),
            whole: play_site(rt, alloc, site, Disturbance::Quiet, Disturbance::Quiet),
        };
        same_status(rt, bench.whole.status, 0, run.words);
        let printed = bench.whole.out.text() == run.summary.as_bytes();
        holds(rt, printed, "the summary");
        bench.judge_others(rt, &bench.whole);
        bench
    }

    // Whether an output is absent or as it was, or a front of its text.
    fn is_front(&self, played: &RunResult, name: &str) -> bool {
        let before = self.site.before;
        let whole = self.whole.shelf.file(name).unwrap_or(&[]);
        match played.shelf.file(name) {
            None => before.is_empty(),
            Some(file) => {
                let stayed = !before.is_empty() && file == before.as_bytes();
                stayed || whole.starts_with(file)
            }
        }
    }

    // Whether an output is what it is where nothing is disturbed.
    fn is_whole(&self, played: &RunResult, name: &str) -> bool {
        played.shelf.file(name) == self.whole.shelf.file(name)
    }

    // Asserts that each output is a front of its text, and whole where it has to be.
    fn judge_outputs(&self, rt: &impl Abort, played: &RunResult, whole: bool) {
        for name in self.site.run.outputs {
            holds(rt, self.is_front(played, name), name);
            holds(rt, !whole || self.is_whole(played, name), name);
        }
    }

    // How many bytes the run has put into the outputs that they still hold.
    fn held(&self, played: &RunResult) -> usize {
        let mut held = 0usize;
        for name in self.site.run.outputs {
            let file = played.shelf.file(name).unwrap_or(&[]);
            if file != self.site.before.as_bytes() {
                held = held.saturating_add(file.len());
            }
        }
        held
    }

    // Asserts that no output was made twice, and that all that the shelf took is still there.
    fn judge_taken(&self, rt: &impl Abort, played: &RunResult) {
        let calls = played.shelf.calls();
        let outputs = self.site.run.outputs.len();
        holds(
            rt,
            made(calls, CallKind::Create) <= outputs,
            "outputs that are made",
        );
        holds(
            rt,
            self.held(played) == moved(calls, CallKind::Append),
            "what the shelf took",
        );
    }

    // Asserts that a file is as it was.
    fn judge_kept(&self, rt: &impl Abort, played: &RunResult, name: &str) {
        let file = played.shelf.file(name);
        holds(rt, file.is_some() && file == self.first.file(name), name);
    }

    // Asserts that each of these files, which are read, is as it was.
    fn judge_read(&self, rt: &impl Abort, played: &RunResult, files: &[(&str, &str)]) {
        for (name, _text) in files {
            self.judge_kept(rt, played, name);
        }
    }

    // Asserts that each file that is no output is as it was.
    fn judge_others(&self, rt: &impl Abort, played: &RunResult) {
        for name in &OTHERS {
            self.judge_kept(rt, played, name);
        }
        self.judge_read(rt, played, self.site.run.texts);
        self.judge_read(rt, played, self.site.run.captures);
    }

    // Asserts what comes of a run whose calls are disturbed: this status, this line or a front of
    // it, and the files.
    fn judge(
        &self,
        rt: &impl Abort,
        of_shelf: Disturbance,
        of_sink: Disturbance,
        wanted: (u8, &str),
    ) {
        let played = play_site(rt, self.alloc, self.site, of_shelf, of_sink);
        let name = name_of(rt, self.alloc, of_shelf, of_sink);
        let (status, line) = wanted;
        same_status(rt, played.status, status, name.as_str());
        let printed = is_printed(played.out.text(), line.as_bytes(), of_sink);
        holds(rt, printed, name.as_str());
        let quiet = matches!(of_shelf, Disturbance::Quiet);
        self.judge_outputs(rt, &played, quiet || status == 0);
        self.judge_taken(rt, &played);
        self.judge_others(rt, &played);
        drop(played);
    }

    // Asserts what comes of it where a call is disturbed.
    fn judge_call(&self, rt: &impl Abort, asked: CallKind, how: Disturbance) {
        let wanted = answer_to(self.site.run, asked, how);
        match asked {
            CallKind::Print => self.judge(rt, Disturbance::Quiet, how, wanted),
            _ => self.judge(rt, how, Disturbance::Quiet, wanted),
        }
    }

    // The same where the sink is disturbed too, while it prints the line for what the shelf did.
    fn judge_line(&self, rt: &impl Abort, asked: CallKind, how: Disturbance) {
        let (status, line) = answer_to(self.site.run, asked, how);
        let at = 1;
        self.judge(rt, how, Disturbance::Fails { at }, (7, line));
        self.judge(rt, how, Disturbance::WantsMemory { at }, (1, line));
        self.judge(rt, how, Disturbance::Stops { at, bytes: 9 }, (7, line));
        self.judge(rt, how, Disturbance::Slow { bytes: 2 }, (status, line));
    }

    // A call fails, or wants memory.
    fn stop_call(&self, rt: &impl Abort, at: usize, call: Call) {
        self.judge_call(rt, call.asked, Disturbance::Fails { at });
        self.judge_call(rt, call.asked, Disturbance::WantsMemory { at });
    }

    // Whether a call that could move so many bytes is tried with these: with all of them in the run
    // of the fewest files, else with some.
    fn is_tried(&self, bytes: usize, moved: usize) -> bool {
        let step = (moved / 6).saturating_add(1);
        let some = bytes == 1 || moved.saturating_sub(bytes) == 1 || bytes % step == 0;
        some || self.site.run.outputs.len() < 5
    }

    // A call moves fewer bytes than it could, and the run goes on, or the next call fails.
    fn shorten_call(&self, rt: &impl Abort, at: usize, call: Call, stops: bool) {
        for bytes in 1..call.moved {
            if self.is_tried(bytes, call.moved) {
                let how = if stops {
                    Disturbance::Stops { at, bytes }
                } else {
                    Disturbance::Short { at, bytes }
                };
                self.judge_call(rt, call.asked, how);
            }
        }
    }

    // The same of each of these calls.
    fn shorten_calls(&self, rt: &impl Abort, calls: &[Call], stops: bool) {
        for (before, call) in calls.iter().enumerate() {
            self.shorten_call(rt, before.saturating_add(1), *call, stops);
        }
    }

    // The same of each call.
    fn shorten(&self, rt: &impl Abort, stops: bool) {
        self.shorten_calls(rt, self.whole.shelf.calls(), stops);
        self.shorten_calls(rt, self.whole.out.calls(), stops);
    }

    // Has each of these calls fail, or want memory.
    fn stop_calls(&self, rt: &impl Abort, calls: &[Call]) {
        for (before, call) in calls.iter().enumerate() {
            self.stop_call(rt, before.saturating_add(1), *call);
        }
    }

    // Has each call of the shelf fail, and the sink too while it prints the line for that.
    fn sweep_lines(&self, rt: &impl Abort) {
        for (before, call) in self.whole.shelf.calls().iter().enumerate() {
            let at = before.saturating_add(1);
            self.judge_line(rt, call.asked, Disturbance::Fails { at });
        }
    }

    // All calls move at most so many bytes.
    fn judge_slow(&self, rt: &impl Abort, bytes: usize) {
        let how = Disturbance::Slow { bytes };
        self.judge(rt, how, how, (0, self.site.run.summary));
    }

    // Has each call fail, and all of them move few bytes.
    fn fail(&self, rt: &impl Abort) {
        self.stop_calls(rt, self.whole.shelf.calls());
        self.stop_calls(rt, self.whole.out.calls());
        self.sweep_lines(rt);
        for bytes in &[1, 7, 100] {
            self.judge_slow(rt, *bytes);
        }
    }

    // Has each call of the shelf fail, want memory, and move one byte before the next one fails.
    fn stop(&self, rt: &impl Abort) {
        for (before, call) in self.whole.shelf.calls().iter().enumerate() {
            let at = before.saturating_add(1);
            self.stop_call(rt, at, *call);
            if call.moved > 1 {
                self.judge_call(rt, call.asked, Disturbance::Stops { at, bytes: 1 });
            }
        }
    }
}

// Names the disturbances of a run.
fn name_of(rt: &impl Abort, alloc: Global, of_shelf: Disturbance, of_sink: Disturbance) -> String {
    format!(in alloc; "{of_shelf:?} {of_sink:?}").expect(rt, "memory")
}

// Whether this is what a sink with this disturbance prints of a line.
fn is_printed(text: &[u8], line: &[u8], of_sink: Disturbance) -> bool {
    if is_loud(of_sink) {
        line.starts_with(text) && text.len() < line.len()
    } else {
        text == line
    }
}

// Whether a sink with this disturbance prints no whole line.
fn is_loud(of_sink: Disturbance) -> bool {
    matches!(
        of_sink,
        Disturbance::Fails { .. } | Disturbance::WantsMemory { .. } | Disturbance::Stops { .. }
    )
}

// How many calls asked for this.
fn made(calls: &[Call], asked: CallKind) -> usize {
    calls.iter().filter(|call| call.asked == asked).count()
}

// How many bytes the calls moved that asked for this.
fn moved(calls: &[Call], asked: CallKind) -> usize {
    let mut moved = 0usize;
    for call in calls {
        if call.asked == asked {
            moved = moved.saturating_add(call.moved);
        }
    }
    moved
}

// Asserts that a run reads more files than its captures, and each by more than one call.
fn judge_reads(rt: &impl Abort, bench: &SweepBench<'_>) {
    let calls = bench.whole.shelf.calls();
    let opened = made(calls, CallKind::Open);
    holds(
        rt,
        opened > bench.site.run.captures.len(),
        "files that are opened",
    );
    holds(rt, made(calls, CallKind::Read) > opened, "calls that read");
}

// Asserts that each output is made and written by one call, and one line printed.
fn judge_writes(rt: &impl Abort, bench: &SweepBench<'_>) {
    let calls = bench.whole.shelf.calls();
    let outputs = bench.site.run.outputs.len();
    holds(
        rt,
        made(calls, CallKind::Create) == outputs,
        "files that are made",
    );
    holds(
        rt,
        made(calls, CallKind::Append) == outputs,
        "calls that write",
    );
    holds(rt, bench.whole.out.calls().len() == 1, "lines");
}

// A bench for a run, over texts that are there under the names of its outputs; none is where the
// text is empty.
fn bench_of<'a>(rt: &impl Abort, alloc: Global, run: &'a Run, before: &'a str) -> SweepBench<'a> {
    let bench = SweepBench::new(rt, alloc, run, before);
    judge_reads(rt, &bench);
    judge_writes(rt, &bench);
    bench
}

// Has each call of a run fail or want memory, where nothing is there under the names of its
// outputs.
fn fail_fresh(rt: &impl Abort, alloc: Global, run: &Run) {
    let bench = bench_of(rt, alloc, run, "");
    bench.fail(rt);
    drop(bench);
}

// The same where other texts are there.
fn fail_over(rt: &impl Abort, alloc: Global, run: &Run) {
    let bench = bench_of(rt, alloc, run, BEFORE);
    bench.stop(rt);
    drop(bench);
}

// Has each call of a run fail or want memory.
fn fail_run(rt: &impl Abort, alloc: Global, run: &Run) {
    fail_fresh(rt, alloc, run);
    fail_over(rt, alloc, run);
}

// Has each call of a run move fewer bytes than it could, and go on, or fail at the next one.
fn shorten_run(rt: &impl Abort, alloc: Global, run: &Run, stops: bool) {
    let bench = bench_of(rt, alloc, run, "");
    bench.shorten(rt, stops);
    drop(bench);
}

#[test]
fn each_failing_call_of_one_extender_is_answered_as_it_must(rt: HostRuntime) {
    for run in &ONE {
        fail_run(&rt, rt.alloc(), run);
    }
}

#[test]
fn each_failing_call_of_a_bridge_alone_is_answered_as_it_must(rt: HostRuntime) {
    fail_run(&rt, rt.alloc(), &BARE);
}

#[test]
fn each_short_call_of_a_bridge_alone_is_answered_as_it_must(rt: HostRuntime) {
    shorten_run(&rt, rt.alloc(), &BARE, false);
}

#[test]
fn each_call_of_a_bridge_alone_that_stops_in_its_middle_is_answered_as_it_must(rt: HostRuntime) {
    shorten_run(&rt, rt.alloc(), &BARE, true);
}

#[test]
fn each_failing_call_of_a_tree_with_commands_is_answered_as_it_must(rt: HostRuntime) {
    fail_run(&rt, rt.alloc(), &TREE);
}

#[test]
fn each_short_call_of_a_tree_with_commands_is_answered_as_it_must(rt: HostRuntime) {
    shorten_run(&rt, rt.alloc(), &TREE, false);
    shorten_run(&rt, rt.alloc(), &TREE, true);
}

#[test]
fn each_failing_call_of_a_lossy_tree_in_a_drawn_order_is_answered_as_it_must(rt: HostRuntime) {
    fail_run(&rt, rt.alloc(), &LOSSY);
}

#[test]
fn each_short_call_of_a_lossy_tree_in_a_drawn_order_is_answered_as_it_must(rt: HostRuntime) {
    shorten_run(&rt, rt.alloc(), &LOSSY, false);
    shorten_run(&rt, rt.alloc(), &LOSSY, true);
}

#[test]
fn each_failing_call_of_a_net_is_answered_as_it_must(rt: HostRuntime) {
    fail_run(&rt, rt.alloc(), &NET);
}

#[test]
fn each_short_call_of_a_net_is_answered_as_it_must(rt: HostRuntime) {
    shorten_run(&rt, rt.alloc(), &NET, false);
    shorten_run(&rt, rt.alloc(), &NET, true);
}
