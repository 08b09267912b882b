//! A replay under way: one line after the other.

ghost use Rattle.std.specs.Prelude.{◌≡◌, ◌≤◌, ◌++◌, ◌+◌, ◌↔◌, [], IfErr, IfOk, IsTrue, None, Ok, OnErr, OnOk, length};
ghost use Rattle.std.specs.Io.KnownBytes.{Appends};
ghost use Rattle.flat_policy.specs.Policy.Machine.{MachineState, fits_step, reply};
ghost use Rattle.flat_policy.specs.Texts.Answers.{same_answer};
ghost use Rattle.flat_policy.specs.Texts.Lines.{answered_text, read_step_line};
ghost use Rattle.flat_policy.specs.Texts.Streams.{contradicts, step_line};
ghost use Rattle.ports.specs.Devices.{AppendsPart, HasCause, StopsAtFailure};
ghost use Rattle.trace_machine.specs.Machines.{IsMachine, Means, StepsTo};
ghost use Rattle.trace_replay.specs.Traces.{Answers, CanAnswer, CanEnd, IsBegun, Stays, StopsLine, StopsTake, Takes, moved, setup_of};
ghost use Rattle.trace_text.specs.Acting.{unless_fault};
ghost use Rattle.trace_text.specs.Pages.{HasRoom};
ghost use Rattle.trace_text.specs.Writing.{AnswerFits, StepFits};

use crate::status::ReplayStatus;
use flat_policy::cluster::Cluster;
use flat_policy::laws::{runs_stay_sound, runs_stay_within};
use flat_policy::setup::Setup;
use flat_policy::texts::{Given, LineFault};
use ports::{Failed, Sink, put_all};
use sched_base::{Act, Answer, Step};
use std::alloc::{AllocError, Global};
use std::marker::Model;
use trace_machine::laws::blocked_are_live;
use trace_machine::{Machine, Reply};
use trace_text::laws::{lines_are_exact, replies_have_texts};
use trace_text::{Page, STEP_ROOM, read_step_into};

/// The number of the first line behind the setup line.
const FIRST_LINE: u64 = 2;

/// A replay of a trace over one kind of cluster: the machine, output that isn't put yet, and the
/// number of the line that comes next.
pub(crate) struct Trace<C: Cluster> {
    machine: Machine<C>,
    page: Page,
    line: u64,
}

impl<C: Cluster> Model for Trace<C> {
    ghost use Rattle.trace_replay.specs.Traces.{TraceView};

    ghost Value = { TraceView };

    ghost view = { λ t. record { machine = t.machine; page = t.page; line = t.line } };
}

/// A place for what a line says.
pub(crate) fn place() -> Given {
    let step = Step {
        moment: 0,
        actor: 0,
        act: Act::Aim,
    };
    Given { step, answer: None }
}

/// Whether two answers are the same.
#[tactic(auto, using(crate::proofs::SameAnswers::same_by_test))]
fn is_same(a: &Answer, b: &Answer) -> bool
    ensures { result ≡ same_answer a.now b.now }
{
    a == b
}

/// Whether a given answer is another than the machine's.
fn contradicts(given: &Option<Answer>, answer: &Answer) -> bool
    ensures { result ≡ contradicts given.now answer.now }
{
    match given {
        Some(given) => !is_same(given, answer),
        None => false,
    }
}

/// Whether a setup fits a step. It's a call of its own, so that a step stays whole where it was read.
#[inline(never)]
fn is_fitting(setup: &Setup, step: &Step) -> bool
    ensures { result ≡ fits_step setup.now step.now }
{
    setup.fits(step)
}

/// Whether a line is the text of a step alone, at the moment of its reply, and not too long for it.
fn is_reply_text(line: &[u8], given: &Given, reply: &Reply) -> bool
    ensures short { IsTrue result → length line.now ≤ STEP_ROOM }
    ensures moment { IsTrue result → given.now.step.moment ≡ reply.now.moment }
    ensures alone { IsTrue result → given.now.answer ≡ None }
{
    given.step.moment == reply.moment && given.answer.is_none() && line.len() <= STEP_ROOM
}

/// Writes a step with its effective moment and its answer onto a page.
#[inline(never)]
fn write_moved(page: &mut Page, given: &Given, reply: &Reply)
    requires room { HasRoom page.old }
    requires step { StepFits (moved given.now.step reply.now) }
    requires answer { AnswerFits reply.now.answer }
    ensures { page.new ≡ page.old ++ answered_text (moved given.now.step reply.now) reply.now.answer }
{
    let step = Step {
        moment: reply.moment,
        ..given.step
    };
    page.write_line(&step, &reply.answer);
}

/// Writes the step that a line says onto a page, with its effective moment and its answer. Each step
/// has one text, so where its moment stays the line itself is written again.
#[tactic(auto, using(crate::proofs::SaidAgain::reply_again))]
fn write_reply(page: &mut Page, line: &[u8], given: &Given, reply: &Reply)
    requires says { read_step_line line.now ≡ Ok given.now }
    requires room { HasRoom page.old }
    requires step { StepFits (moved given.now.step reply.now) }
    requires answer { AnswerFits reply.now.answer }
    ensures { page.new ≡ page.old ++ answered_text (moved given.now.step reply.now) reply.now.answer }
{
    lines_are_exact();
    if is_reply_text(line, given, reply) {
        page.write_again(line, &reply.answer);
    } else {
        write_moved(page, given, reply);
    }
}

impl<C: Cluster> Trace<C> {
    /// A replay over a setup, before its first step. An error is want of memory.
    pub(crate) fn new(alloc: Global, setup: Setup) -> Result<Trace<C>, AllocError>
        ensures { IfOk result (λ trace. IsBegun setup trace) }
    {
        let page = Page::new(alloc)?;
        Ok(Trace {
            machine: Machine::new(alloc, setup)?,
            page,
            line: FIRST_LINE,
        })
    }

    /// Ends the replay, with every thread of its machine.
    pub(crate) fn end(self)
        requires { CanEnd self }
    {
        let Trace {
            machine,
            page: _,
            line: _,
        } = self;
        machine.end();
    }

    /// The number of the line that comes next.
    pub(crate) fn line(&self) -> u64
        ensures { result ≡ self.now.line }
    {
        self.line
    }

    /// Whether there is room for the answer to a line.
    pub(crate) fn has_room(&self) -> bool
        ensures { IsTrue result ↔ HasRoom self.now.page }
    {
        self.page.has_room()
    }

    /// Puts the output that was gathered. Where a put fails, that is the last one; what is left of
    /// the output is forgotten.
    pub(crate) fn put<K: Sink>(&mut self, sink: &mut K) -> Result<(), Failed>
        ensures ok { OnOk result (Appends (K.taken sink.old) (K.taken sink.new) self.old.page) }
        ensures err { OnErr result (AppendsPart (K.taken sink.old) (K.taken sink.new) self.old.page) }
        ensures cause { HasCause (K.faults sink.old) (K.faults sink.new) result }
        ensures exact { IsTrue K.is_exact → StopsAtFailure (K.faults sink.old) (K.faults sink.new) (K.is_failing sink.new) result }
        ensures page { self.new ≡ record self.old { page = [] } }
    {
        let result = put_all(sink, self.page.bytes());
        self.page.clear();
        result
    }

    /// Reads what a line says into a place, where it is within the grammar and the setup fits it.
    fn read(&self, line: &[u8], given: &mut Given) -> Result<(), LineFault>
        ensures { unless_fault result given.new ≡ step_line (setup_of self.now) line.now }
    {
        read_step_into(line, given)?;
        if is_fitting(self.machine.setup(), &given.step) {
            Ok(())
        } else {
            Err(LineFault::Range)
        }
    }

    /// Does nothing. It tells that every reply has a text.
    fn keeps_texts(&self)
        ensures { (g : MachineState) (s : Step) → Means self.now.machine g → IsTrue (fits_step (setup_of self.now) s) → StepFits (reply (setup_of self.now) g s).step × AnswerFits (reply (setup_of self.now) g s).answer }
    {
        let _line = self.line;
        runs_stay_sound();
        runs_stay_within();
        blocked_are_live();
        replies_have_texts();
    }

    /// Takes the step that a line says and the setup fits, and writes it with its answer onto the
    /// page.
    ///
    /// Errors: `Differs` where another answer is given, and `OutOfMemory`. Then nothing is written.
    fn take(&mut self, line: &[u8], given: &Given) -> Result<(), ReplayStatus>
        requires ready { CanAnswer self.old }
        requires says { read_step_line line.now ≡ Ok given.now }
        requires fits { IsTrue (fits_step (setup_of self.old) given.now.step) }
        requires room { HasRoom self.old.page }
        ensures ok { OnOk result (Takes self.old self.new given.now) }
        ensures err { IfErr result (λ status. StopsTake self.old given.now status × Stays self.old self.new) }
    {
        self.keeps_texts();
        let reply = self.machine.step(&given.step)?;
        if contradicts(&given.answer, &reply.answer) {
            return Err(ReplayStatus::Differs { line: self.line });
        }
        write_reply(&mut self.page, line, given, &reply);
        self.line += 1;
        Ok(())
    }

    /// Answers a line: takes its step, and writes it with its effective moment and its answer onto
    /// the page. What it says is read into the place that is lent, whatever stood there.
    ///
    /// Errors: `BadLine` where it is outside the grammar or the setup doesn't fit it, `Differs`
    /// where another answer is given, and `OutOfMemory`. Then nothing is written.
    pub(crate) fn answer_line(&mut self, line: &[u8], given: &mut Given) -> Result<(), ReplayStatus>
        requires ready { CanAnswer self.old }
        requires room { HasRoom self.old.page }
        ensures ok { OnOk result (Answers self.old self.new line.now) }
        ensures err { IfErr result (λ status. StopsLine self.old line.now status × Stays self.old self.new) }
    {
        match self.read(line, given) {
            Ok(()) => self.take(line, given),
            Err(what) => Err(ReplayStatus::BadLine {
                line: self.line,
                what,
            }),
        }
    }
}
