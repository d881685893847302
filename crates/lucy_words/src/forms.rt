//! The grammar of words: forms, each a list of places.

/// The bounds of a number.
#[derive(Clone, Copy, Debug)]
pub struct Bounds {
    /// The least one.
    pub least: u64,
    /// The greatest one.
    pub most: u64,
}

/// What a place in a form takes. It stands beside a text, which the help shows.
#[derive(Clone, Copy, Debug)]
pub enum Slot {
    /// The text itself.
    Word,
    /// The name of an input: a word that is not empty and does not begin with `-`.
    Name,
    /// The name of an input, or `-` for none.
    NameOrDash,
    /// A canonical decimal within bounds.
    Number(Bounds),
}

/// A form of words: what it asks for.
#[derive(Clone, Copy, Debug)]
pub enum Form {
    /// `check`
    Check,
    /// `certify`
    Certify,
    /// `verify`
    Verify,
    /// `label` without a walk.
    Label,
    /// `label` with a walk.
    LabelWalk,
    /// `replay`
    Replay,
    /// `run`
    Run,
    /// `make-plan`
    MakePlan,
    /// `make-work`
    MakeWork,
    /// `make-steps`
    MakeSteps,
    /// `drill`
    Drill,
    /// `help`
    Help,
}

/// Seeds.
pub const SEED: Bounds = Bounds {
    least: 0,
    most: u64::MAX,
};

/// The rounds of a walk.
pub const LENGTH: Bounds = Bounds {
    least: 0,
    most: 1_000,
};

/// The size of a made plan.
pub const SIZE: Bounds = Bounds { least: 1, most: 32 };

/// The replicas of made work.
pub const REPLICAS: Bounds = Bounds { least: 1, most: 16 };

/// The calls of each replica of made work.
pub const CALLS: Bounds = Bounds {
    least: 0,
    most: 4_096,
};

/// The rounds of made steps.
pub const ROUNDS: Bounds = Bounds {
    least: 0,
    most: 1_000,
};

/// The forms of words, in the order in which they are tried and shown.
pub const FORMS: [(Form, &[(&str, Slot)]); 12] = [
    (Form::Check, &[("check", Slot::Word), ("PLAN", Slot::Name)]),
    (
        Form::Certify,
        &[("certify", Slot::Word), ("PLAN", Slot::Name)],
    ),
    (
        Form::Verify,
        &[
            ("verify", Slot::Word),
            ("PLAN", Slot::Name),
            ("CERT", Slot::Name),
        ],
    ),
    (Form::Label, &[("label", Slot::Word), ("PLAN", Slot::Name)]),
    (
        Form::LabelWalk,
        &[
            ("label", Slot::Word),
            ("PLAN", Slot::Name),
            ("SEED", Slot::Number(SEED)),
            ("LENGTH", Slot::Number(LENGTH)),
        ],
    ),
    (
        Form::Replay,
        &[
            ("replay", Slot::Word),
            ("PLAN", Slot::Name),
            ("CERT", Slot::NameOrDash),
            ("WORK", Slot::Name),
            ("STEPS", Slot::Name),
        ],
    ),
    (
        Form::Run,
        &[
            ("run", Slot::Word),
            ("PLAN", Slot::Name),
            ("CERT", Slot::NameOrDash),
            ("WORK", Slot::Name),
            ("SEED", Slot::Number(SEED)),
        ],
    ),
    (
        Form::MakePlan,
        &[
            ("make-plan", Slot::Word),
            ("SEED", Slot::Number(SEED)),
            ("SIZE", Slot::Number(SIZE)),
        ],
    ),
    (
        Form::MakeWork,
        &[
            ("make-work", Slot::Word),
            ("PLAN", Slot::Name),
            ("SEED", Slot::Number(SEED)),
            ("REPLICAS", Slot::Number(REPLICAS)),
            ("CALLS", Slot::Number(CALLS)),
        ],
    ),
    (
        Form::MakeSteps,
        &[
            ("make-steps", Slot::Word),
            ("PLAN", Slot::Name),
            ("WORK", Slot::Name),
            ("SEED", Slot::Number(SEED)),
            ("ROUNDS", Slot::Number(ROUNDS)),
        ],
    ),
    (
        Form::Drill,
        &[
            ("drill", Slot::Word),
            ("SEED", Slot::Number(SEED)),
            ("SIZE", Slot::Number(SIZE)),
        ],
    ),
    (Form::Help, &[("help", Slot::Word)]),
];
