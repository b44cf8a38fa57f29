//! Cases of a node over a link whose other end the test has, and the function that takes a node through all of them. It
//! is proved once for both nodes.
use crate::nodes::answers::{Answer, Spot, check_answer};
use crate::nodes::frames::Spelled;
use crate::nodes::other_end::Frames;
use blocks::{Refusal, Settings};
use std::alloc::Global;
use std::fmt::Debug;
use std::process::Abort;

/// A node over a link. What it sends stays in the queue of its link, and what the peer sends is put there first.
pub(crate) trait Node: Drop + Sized {
    type Step: Copy;

    /// What its queries return.
    type State: Copy + Debug + PartialEq;

    /// What else is checked at the end.
    type Left;

    /// Makes a node over a zero-filled disk of 8 blocks, which was never opened.
    fn fresh(alloc: Global, settings: Settings) -> Result<Self, Refusal>;

    /// Opens the first connection, with these frames of the peer in its link.
    fn connect(&mut self, alloc: Global, frames: Frames) -> Result<(), Refusal>;

    /// Takes the next frame of the peer.
    fn take(&mut self) -> Answer;

    fn do_step(&mut self, alloc: Global, step: Self::Step) -> Answer;

    fn state(&self) -> Self::State;

    /// Checks this at the end.
    fn leaves(&mut self, rt: &impl Abort, spot: Spot, left: &Self::Left);
}

/// What comes before a frame of the peer.
pub(crate) struct Before<S: 'static> {
    pub(crate) settings: Settings,
    /// The frames that the peer sent before it.
    pub(crate) received: &'static [Spelled],
    /// What is done, and what each call returns.
    pub(crate) rows: &'static [&'static [(S, Answer)]],
}

/// What follows it.
pub(crate) struct After<S: 'static, T, L> {
    /// The frames that the peer sent after it.
    pub(crate) behind: &'static [Spelled],
    /// The node's state after it was taken.
    pub(crate) state: T,
    /// What is done then.
    pub(crate) rows: &'static [(S, Answer)],
    /// The node's state at the end.
    pub(crate) end: T,
    pub(crate) left: L,
}

/// Frames, each with what a node of its own returns, and what comes before and after.
pub(crate) struct Case<S: 'static, T: 'static, L: 'static>(
    pub(crate) &'static Before<S>,
    pub(crate) &'static [(Spelled, Answer)],
    pub(crate) &'static After<S, T, L>,
);

fn check_state<N: Node>(rt: &impl Abort, node: &N, spot: Spot, wanted: &N::State) {
    assert_eq!(rt;
        node.state(),
        *wanted,
        "case {}, frame {}",
        spot.case,
        spot.frame
    );
}

// Checks that each call returns what its row says.
fn run<N: Node>(
    rt: &impl Abort,
    (node, alloc): (&mut N, Global),
    spot: Spot,
    when: &'static str,
    rows: &[(N::Step, Answer)],
) {
    for (i, (step, wanted)) in rows.iter().enumerate() {
        let answer = node.do_step(alloc, *step);
        check_answer(rt, spot, (when, i), answer, *wanted);
    }
}

fn goes<N: Node>(
    rt: &impl Abort,
    (node, alloc): (&mut N, Global),
    spot: Spot,
    case: &'static Case<N::Step, N::State, N::Left>,
    (frame, wanted): (Spelled, Answer),
) {
    let Case(before, _, after) = case;
    let frames = Frames {
        before: before.received,
        tested: frame,
        behind: after.behind,
    };
    node.connect(alloc, frames).expect(rt, "a connection");
    for rows in before.rows {
        run(rt, (node, alloc), spot, "before", rows);
    }
    check_answer(rt, spot, ("tested", 0), node.take(), wanted);
    check_state(rt, node, spot, &after.state);
    run(rt, (node, alloc), spot, "after", after.rows);
    check_state(rt, node, spot, &after.end);
    node.leaves(rt, spot, &after.left);
}

fn takes<N: Node, R: Abort + AllocGlobal>(
    rt: &R,
    spot: Spot,
    case: &'static Case<N::Step, N::State, N::Left>,
    frame: (Spelled, Answer),
) {
    let mut node = N::fresh(rt.alloc(), case.0.settings).expect(rt, "a node");
    goes(rt, (&mut node, rt.alloc()), spot, case, frame);
}

/// Takes a new node through each frame of each case.
pub(crate) fn passes<N: Node, R: Abort + AllocGlobal>(
    rt: &R,
    cases: &'static [Case<N::Step, N::State, N::Left>],
) {
    for (i, case) in cases.iter().enumerate() {
        for (j, frame) in case.1.iter().enumerate() {
            takes::<N, R>(rt, Spot { case: i, frame: j }, case, *frame);
        }
    }
}
