//! The top call: from words and bytes to bytes and a status.
ghost use Rattle.std.specs.Prelude.{◌≡◌, ◌≢◌, ◌≤◌, ◌⊎◌, true, false, None, IfOk, IsErrOf, length, map, string_bytes};
ghost use Rattle.outside_io.specs.Faults.{Rose};
ghost use Rattle.outside_io.specs.Whole.{ReadsPast, ReadsWithin};
ghost use Rattle.route_lang.specs.Limits.{input_limit};
ghost use Rattle.route_lang.specs.Script.{script_of};
ghost use Rattle.route_cli.specs.Cause.{Answered, Interrupted, IsComplete, ReadsIf, Refuses};
ghost use Rattle.route_cli.specs.Result.{FitsJob, FitsTask, GivesReplayBy, GivesResultBy, is_read, is_reader, result_of};
ghost use Rattle.route_cli.specs.Words.{task_of};
ghost use Rattle.route_cli.specs.declared.job.Task.TheVariants.{Does, NotTaken, ReplaysBy};

use crate::OutOfMemory;
use crate::job::{Job, Task};
use crate::status::Status;
use command_line::{WordsError, read_words};
use fib_pass::FibTotals;
use outside_io::{ReadError, Sink, Source, read_all, write_all};
use replay_run::{Gate, check_text, gen_text, serial, show_text};
use route_lang::{INPUT_MAX, Reason, ScriptError, line_count, read_script};
use std::alloc::Global;
use std::sync::Wait;
use std::thread::Threads;
use threaded_replay::threaded;

/// All that the program does: it reads the words, then the source, then the script in it, does
/// the work, and writes the text to the sink and nothing else. The gate is for the workers of a
/// replay by some; what their passes did is told where the whole output of such a replay was
/// written, and nowhere else. It may wait for the workers.
pub fn run<R: AllocGlobal + Threads + Wait + Sync, S: Source, K: Sink, G: Gate + Sync>(
    rt: &R,
    words: &[String],
    source: &mut S,
    sink: &mut K,
    gate: &G,
) -> (Status, Option<FibTotals>)
    // Words that are not taken, and a task that reads nothing: nothing is read.
    ensures usage { result.0 ≡ Status.Usage → task_of (map string_bytes words.now) ≡ NotTaken }
    ensures unread { is_reader (task_of (map string_bytes words.now)) ≡ false → source.new ≡ source.old }

    // The whole text of the bytes that were read, and what passes did.
    ensures ok { result.0 ≡ Status.Ok → Answered (task_of (map string_bytes words.now)) (S.left source.old) (S.left source.new) (K.written sink.old) (K.written sink.new) result.1 }
    ensures no_totals { result.0 ≢ Status.Ok → result.1 ≡ None }

    // When each fault comes. Too many bytes give one fault, and no other answer.
    ensures read { result.0 ≡ Status.ReadFault → Rose (S.faults source.old) (S.faults source.new) }
    ensures refused { (line : _) (reason : _) → result.0 ≡ Status.ScriptRefused line reason → Refuses (task_of (map string_bytes words.now)) (S.left source.old) (S.left source.new) line reason }
    ensures within { result.0 ≢ Status.ScriptRefused 0 Reason.TooLarge → ReadsWithin input_limit (S.left source.old) (S.left source.new) }
    ensures write { result.0 ≡ Status.WriteFault → Rose (K.faults sink.old) (K.faults sink.new) }
    ensures interrupted { result.0 ≡ Status.WriteFault → Interrupted (task_of (map string_bytes words.now)) (S.left source.old) (S.left source.new) (K.written sink.old) (K.written sink.new) }

    // Nothing is written before the text is whole.
    ensures untouched { result.0 ≢ Status.Ok → result.0 ≢ Status.WriteFault → sink.new ≡ sink.old }
    ensures source_later { S.faults source.old ≤ S.faults source.new }
    ensures sink_later { K.faults sink.old ≤ K.faults sink.new }

    // Words that are taken, a script within the limit and no fault: Ok, or want of memory.
    ensures complete { IsComplete (task_of (map string_bytes words.now)) (S.left source.old) (S.faults source.old) (S.faults source.new) (K.faults sink.old) (K.faults sink.new) result.0 }
{
    match read_task(rt.alloc(), words) {
        Ok(Task::Does(job)) => (plain(rt.alloc(), job, source, sink), None),
        Ok(Task::ReplaysBy { workers }) => replay_by(rt, workers, source, sink, gate),
        Ok(Task::NotTaken) => (Status::Usage, None),
        Err(_) => (Status::OutOfMemory, None),
    }
}

/// What the words ask.
fn read_task(alloc: Global, words: &[String]) -> Result<Task, OutOfMemory>
    ensures task { IfOk result (λ task. task ≡ task_of (map string_bytes words.now)) }
    ensures fits { IfOk result FitsTask }
{
    match read_words(alloc, words) {
        Ok(request) => Ok(Task::of(&request)),
        Err(WordsError::Usage) => Ok(Task::NotTaken),
        Err(WordsError::OutOfMemory) => Err(OutOfMemory),
    }
}

/// Does a job that waits for nobody: reads the source to its end, unless the job reads nothing, and
/// writes the text that it makes of the bytes to the sink. It always returns. A generator makes 1
/// to 1,048,576 lines.
pub fn plain<S: Source, K: Sink>(alloc: Global, job: Job, source: &mut S, sink: &mut K) -> Status
    requires { FitsJob job }
    ensures no_usage { result ≢ Status.Usage }
    ensures unread { is_read job ≡ false → source.new ≡ source.old }

    // The whole text of the bytes that were read.
    ensures ok { result ≡ Status.Ok → Answered (Does job) (S.left source.old) (S.left source.new) (K.written sink.old) (K.written sink.new) None }

    // When each fault comes. Too many bytes give one fault, and no other answer.
    ensures read { result ≡ Status.ReadFault → Rose (S.faults source.old) (S.faults source.new) }
    ensures refused { (line : _) (reason : _) → result ≡ Status.ScriptRefused line reason → Refuses (Does job) (S.left source.old) (S.left source.new) line reason }
    ensures within { result ≢ Status.ScriptRefused 0 Reason.TooLarge → ReadsWithin input_limit (S.left source.old) (S.left source.new) }
    ensures write { result ≡ Status.WriteFault → Rose (K.faults sink.old) (K.faults sink.new) }
    ensures interrupted { result ≡ Status.WriteFault → Interrupted (Does job) (S.left source.old) (S.left source.new) (K.written sink.old) (K.written sink.new) }

    // Nothing is written before the text is whole.
    ensures untouched { result ≢ Status.Ok → result ≢ Status.WriteFault → sink.new ≡ sink.old }
    ensures source_later { S.faults source.old ≤ S.faults source.new }
    ensures sink_later { K.faults sink.old ≤ K.faults sink.new }

    // A script within the limit and no fault: Ok, or want of memory.
    ensures complete { IsComplete (Does job) (S.left source.old) (S.faults source.old) (S.faults source.new) (K.faults sink.old) (K.faults sink.new) result }
{
    read_and_write(alloc, job, source, sink)
}

/// The job, with a clause for each status. Completeness follows from these.
fn read_and_write<S: Source, K: Sink>(
    alloc: Global,
    job: Job,
    source: &mut S,
    sink: &mut K,
) -> Status
    requires { FitsJob job }
    ensures no_usage { result ≢ Status.Usage }
    ensures unread { is_read job ≡ false → source.new ≡ source.old }
    ensures ok { result ≡ Status.Ok → Answered (Does job) (S.left source.old) (S.left source.new) (K.written sink.old) (K.written sink.new) None }
    ensures read { result ≡ Status.ReadFault → Rose (S.faults source.old) (S.faults source.new) }
    ensures refused { (line : _) (reason : _) → result ≡ Status.ScriptRefused line reason → Refuses (Does job) (S.left source.old) (S.left source.new) line reason }
    ensures within { result ≢ Status.ScriptRefused 0 Reason.TooLarge → ReadsWithin input_limit (S.left source.old) (S.left source.new) }
    ensures write { result ≡ Status.WriteFault → Rose (K.faults sink.old) (K.faults sink.new) }
    ensures interrupted { result ≡ Status.WriteFault → Interrupted (Does job) (S.left source.old) (S.left source.new) (K.written sink.old) (K.written sink.new) }
    ensures untouched { result ≢ Status.Ok → result ≢ Status.WriteFault → sink.new ≡ sink.old }
    ensures source_later { S.faults source.old ≤ S.faults source.new }
    ensures sink_later { K.faults sink.old ≤ K.faults sink.new }
{
    let bytes = match read_for(alloc, job, source) {
        Ok(bytes) => bytes,
        Err(ReadError::Failed) => return Status::ReadFault,
        Err(ReadError::TooLarge) => return Status::ScriptRefused {
            line: 0,
            reason: Reason::TooLarge,
        },
        Err(ReadError::OutOfMemory) => return Status::OutOfMemory,
    };
    let text = match result_text(alloc, job, &bytes) {
        Ok(text) => text,
        Err(ScriptError::Fault(fault)) => return Status::ScriptRefused {
            line: fault.line,
            reason: fault.reason,
        },
        Err(ScriptError::OutOfMemory) => return Status::OutOfMemory,
    };
    match write_all(sink, &text) {
        Ok(()) => Status::Ok,
        Err(_) => Status::WriteFault,
    }
}

/// The bytes that a job reads: all of the source, none for the generator.
fn read_for<S: Source>(alloc: Global, job: Job, source: &mut S) -> Result<Vec<u8>, ReadError>
    ensures reads { IfOk result (λ bytes. ReadsIf (is_read job) (S.left source.old) (S.left source.new) bytes.items) }
    ensures few { IfOk result (λ bytes. length bytes.items ≤ input_limit) }
    ensures unread { is_read job ≡ false → source.new ≡ source.old }
    ensures too_large { IsErrOf result ReadError.TooLarge → ReadsPast input_limit (S.left source.old) (S.left source.new) × (is_read job ≡ true) }
    ensures failed { IsErrOf result ReadError.Failed → Rose (S.faults source.old) (S.faults source.new) }
    ensures within { IsErrOf result ReadError.TooLarge ⊎ ReadsWithin input_limit (S.left source.old) (S.left source.new) }
    ensures later { S.faults source.old ≤ S.faults source.new }
{
    if job.is_read() {
        read_all(alloc, source, INPUT_MAX)
    } else {
        Ok(Vec::new(alloc))
    }
}

/// What the job makes of the bytes.
fn result_text(alloc: Global, job: Job, bytes: &[u8]) -> Result<Vec<u8>, ScriptError>
    requires fits { FitsJob job }
    requires few { length bytes.now ≤ input_limit }
    ensures { GivesResultBy (λ text. text.items) result (result_of job bytes.now) }
{
    match job {
        Job::Replay => {
            let script = read_script(alloc, bytes)?;
            Ok(serial(alloc, &script)?)
        }
        Job::Check => {
            let script = read_script(alloc, bytes)?;
            Ok(check_text(alloc, &script, line_count(bytes) as u32)?)
        }
        Job::Show => {
            let script = read_script(alloc, bytes)?;
            Ok(show_text(alloc, &script)?)
        }
        Job::Gen { seed, count } => Ok(gen_text(alloc, seed, count)?),
    }
}

/// Replays the script of the source by so many workers, and writes the output to the sink.
fn replay_by<R: AllocGlobal + Threads + Wait + Sync, S: Source, K: Sink, G: Gate + Sync>(
    rt: &R,
    workers: u32,
    source: &mut S,
    sink: &mut K,
    gate: &G,
) -> (Status, Option<FibTotals>)
    requires { (1 ≤ workers) × (workers ≤ 64) }
    ensures no_usage { result.0 ≢ Status.Usage }
    ensures ok { result.0 ≡ Status.Ok → Answered (ReplaysBy workers) (S.left source.old) (S.left source.new) (K.written sink.old) (K.written sink.new) result.1 }
    ensures no_totals { result.0 ≢ Status.Ok → result.1 ≡ None }
    ensures read { result.0 ≡ Status.ReadFault → Rose (S.faults source.old) (S.faults source.new) }
    ensures refused { (line : _) (reason : _) → result.0 ≡ Status.ScriptRefused line reason → Refuses (ReplaysBy workers) (S.left source.old) (S.left source.new) line reason }
    ensures within { result.0 ≢ Status.ScriptRefused 0 Reason.TooLarge → ReadsWithin input_limit (S.left source.old) (S.left source.new) }
    ensures write { result.0 ≡ Status.WriteFault → Rose (K.faults sink.old) (K.faults sink.new) }
    ensures interrupted { result.0 ≡ Status.WriteFault → Interrupted (ReplaysBy workers) (S.left source.old) (S.left source.new) (K.written sink.old) (K.written sink.new) }
    ensures untouched { result.0 ≢ Status.Ok → result.0 ≢ Status.WriteFault → sink.new ≡ sink.old }
    ensures source_later { S.faults source.old ≤ S.faults source.new }
    ensures sink_later { K.faults sink.old ≤ K.faults sink.new }
{
    let bytes = match read_all(rt.alloc(), source, INPUT_MAX) {
        Ok(bytes) => bytes,
        Err(ReadError::Failed) => return (Status::ReadFault, None),
        Err(ReadError::TooLarge) => return (
            Status::ScriptRefused {
                line: 0,
                reason: Reason::TooLarge,
            },
            None,
        ),
        Err(ReadError::OutOfMemory) => return (Status::OutOfMemory, None),
    };
    let (text, totals) = match replay_text(rt, workers, &bytes, gate) {
        Ok(output) => output,
        Err(ScriptError::Fault(fault)) => return (
            Status::ScriptRefused {
                line: fault.line,
                reason: fault.reason,
            },
            None,
        ),
        Err(ScriptError::OutOfMemory) => return (Status::OutOfMemory, None),
    };
    match write_all(sink, &text) {
        Ok(()) => (Status::Ok, Some(totals)),
        Err(_) => (Status::WriteFault, None),
    }
}

/// The output of the bytes' script, replayed by so many workers, and what their passes did.
fn replay_text<R: AllocGlobal + Threads + Wait + Sync, G: Gate + Sync>(
    rt: &R,
    workers: u32,
    bytes: &[u8],
    gate: &G,
) -> Result<(Vec<u8>, FibTotals), ScriptError>
    requires workers { (1 ≤ workers) × (workers ≤ 64) }
    requires few { length bytes.now ≤ input_limit }
    ensures { GivesReplayBy (λ output. output.0.items) (λ output. output.1) workers result (script_of bytes.now) }
{
    let script = read_script(rt.alloc(), bytes)?;
    Ok(threaded(rt, rt.alloc(), &script, workers as u8, gate)?)
}
