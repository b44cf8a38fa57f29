//! How the status page asks the session for a report.
use serve_page::StatusReport;
use std::sync::{Condvar, Mutex, Wait};
use std::time::{Clock, Duration};

/// How long a client of the page waits for a report, in looks. Between two sessions no thread gives one, and while a disk hangs
/// the thread that does waits for its node.
const LOOKS: u32 = 20;

/// How long one of these looks takes, in milliseconds.
const LOOK_MS: u64 = 100;

/// The questions and the last answer. The numbers count the questions from 1.
#[derive(Drop)]
struct Answered {
    // The last question that was asked.
    asked: u64,
    // The last one that the present or the next report answers.
    seen: u64,
    // The last one that a report has answered.
    answered: u64,
    report: Option<StatusReport>,
}

/// Questions, and their answer: the threads of the page ask, and the thread that keeps the link up answers all of them with one
/// report, since it knows the present session.
#[derive(Drop)]
pub(crate) struct Reports {
    answered: Mutex<Answered>,
    given: Condvar,
}

impl Reports {
    /// Creates one with no question asked.
    pub(crate) fn new() -> Reports {
        Reports {
            answered: Mutex::new(Answered {
                asked: 0,
                seen: 0,
                answered: 0,
                report: None,
            }),
            given: Condvar::new(),
        }
    }

    /// Asks for a report, and waits for it. The report was begun after the question. Returns `None` if no session gives one in time.
    pub(crate) fn ask<R: Wait + Clock>(&self, rt: &R) -> Option<StatusReport> {
        let mut answered = self.answered.lock(rt);
        let question = answered.asked.saturating_add(1);
        answered.asked = question;
        for _ in 0..LOOKS {
            if answered.answered >= question {
                return answered.report;
            }
            let look = Duration::from_millis(LOOK_MS);
            answered = self.given.wait_timeout(rt, answered, look).0;
        }
        None
    }

    /// Returns whether a report is asked for.
    pub(crate) fn is_asked<R: Wait>(&self, rt: &R) -> bool {
        let mut answered = self.answered.lock(rt);
        answered.seen = answered.asked;
        answered.seen > answered.answered
    }

    /// Gives the report that was asked for.
    pub(crate) fn give<R: Wait>(&self, rt: &R, report: StatusReport) {
        let mut answered = self.answered.lock(rt);
        answered.answered = answered.seen;
        answered.report = Some(report);
        drop(answered);
        self.given.notify_all();
    }
}
