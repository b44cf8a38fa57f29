//! Cases of a node's core, for tables, and the function that takes a core through all of them. It is proved once for
//! both nodes.
use blocks::Refusal;
use std::alloc::Global;
use std::fmt::Debug;
use std::process::Abort;

/// Where a core goes through a part: the name of the case, and what gives memory.
#[derive(Clone, Copy)]
pub(crate) struct Scene {
    pub(crate) name: &'static str,
    pub(crate) alloc: Global,
}

/// A core by its steps, and by what it holds.
pub(crate) trait Stepped {
    type Step: Copy;

    /// What a step returns.
    type Outcome: Copy + Debug + PartialEq;

    type Fact: Copy;

    fn do_step(&mut self, alloc: Global, step: Self::Step) -> Result<Self::Outcome, Refusal>;

    fn is_true(&self, fact: Self::Fact) -> bool;
}

fn check_answer<S: Copy + Debug + PartialEq>(
    rt: &impl Abort,
    (name, step): (&str, usize),
    answer: Result<S, Refusal>,
    wanted: Result<S, Refusal>,
) {
    assert_eq!(rt; answer, wanted, "{name}: step {step}");
}

/// Checks that each step returns what its row says.
pub(crate) fn run<C: Stepped>(
    rt: &impl Abort,
    core: &mut C,
    scene: Scene,
    rows: &[(C::Step, Result<C::Outcome, Refusal>)],
) {
    for (i, (step, wanted)) in rows.iter().enumerate() {
        let answer = core.do_step(scene.alloc, *step);
        check_answer(rt, (scene.name, i), answer, *wanted);
    }
}

/// Checks that all of these facts are true.
pub(crate) fn holds<C: Stepped>(rt: &impl Abort, core: &C, name: &str, facts: &[C::Fact]) {
    for (i, fact) in facts.iter().enumerate() {
        assert!(rt; core.is_true(*fact), "{name}: fact {i}");
    }
}

/// A core by the parts of its cases.
pub(crate) trait Core: Drop + Sized {
    /// What it is made of.
    type Start;

    /// A part of what it goes through.
    type Part: Copy;

    /// A frame, or the fault that replaces it.
    type Frame: Copy;

    /// Makes a core that was never opened.
    fn fresh(alloc: Global, start: &Self::Start) -> Result<Self, Refusal>;

    /// Returns the part in which this frame is refused.
    fn refused(frame: Self::Frame, refusal: Refusal) -> Self::Part;

    fn go(&mut self, rt: &impl Abort, scene: Scene, part: &Self::Part);
}

fn go_on<C: Core>(rt: &impl Abort, core: &mut C, scene: Scene, parts: &[C::Part]) {
    for part in parts {
        core.go(rt, scene, part);
    }
}

/// The parts that a core goes through. The one in the middle, if there is one, is made while the test runs.
#[derive(Clone, Copy)]
pub(crate) struct Way<'a, P> {
    pub(crate) before: &'a [P],
    pub(crate) made: Option<P>,
    pub(crate) after: &'a [P],
}

fn go_through<C: Core>(rt: &impl Abort, core: &mut C, scene: Scene, way: &Way<'_, C::Part>) {
    go_on(rt, core, scene, way.before);
    if let Some(part) = &way.made {
        core.go(rt, scene, part);
    }
    go_on(rt, core, scene, way.after);
}

/// Takes a core that was never opened through these parts.
pub(crate) fn goes<C: Core, R: Abort + AllocGlobal>(
    rt: &R,
    name: &'static str,
    start: &C::Start,
    way: &Way<'_, C::Part>,
) {
    let mut core = C::fresh(rt.alloc(), start).expect(rt, "a core");
    let scene = Scene {
        name,
        alloc: rt.alloc(),
    };
    go_through(rt, &mut core, scene, way);
}

/// A core that was never opened, and the two lists of parts that it goes through.
pub(crate) struct Case<S: 'static, P: 'static> {
    pub(crate) name: &'static str,
    pub(crate) start: &'static S,
    pub(crate) before: &'static [P],
    pub(crate) parts: &'static [P],
}

/// Takes each case's core through its parts.
pub(crate) fn passes<C: Core, R: Abort + AllocGlobal>(
    rt: &R,
    cases: &'static [Case<C::Start, C::Part>],
) {
    for case in cases {
        let way = Way {
            before: case.before,
            made: None,
            after: case.parts,
        };
        goes::<C, R>(rt, case.name, case.start, &way);
    }
}

/// Frames, each refused by a core of its own, and what comes before and after.
pub(crate) struct Foreign<S: 'static, P: 'static, F: 'static> {
    pub(crate) name: &'static str,
    pub(crate) start: &'static S,
    pub(crate) before: &'static [P],
    pub(crate) frames: &'static [(F, Refusal)],
    pub(crate) after: &'static [P],
}

fn check_foreign<C: Core, R: Abort + AllocGlobal>(
    rt: &R,
    case: &'static Foreign<C::Start, C::Part, C::Frame>,
    (frame, refusal): (C::Frame, Refusal),
) {
    let way = Way {
        before: case.before,
        made: Some(C::refused(frame, refusal)),
        after: case.after,
    };
    goes::<C, R>(rt, case.name, case.start, &way);
}

/// Checks that each frame is refused, between the parts before and after it.
pub(crate) fn check_each_foreign<C: Core, R: Abort + AllocGlobal>(
    rt: &R,
    cases: &'static [Foreign<C::Start, C::Part, C::Frame>],
) {
    for case in cases {
        for row in case.frames {
            check_foreign::<C, R>(rt, case, *row);
        }
    }
}
