//! Which workloads there are, and how large they are made.

/// What is run.
#[derive(Clone, Copy)]
pub enum Workload {
    Scripts,
    Far,
    Calls,
    Storms,
    Quiet,
}

impl Workload {
    /// All of them.
    pub const ALL: [Workload; 5] = [
        Workload::Scripts,
        Workload::Far,
        Workload::Calls,
        Workload::Storms,
        Workload::Quiet,
    ];

    /// The word for it.
    pub fn name(self) -> &'static str {
        match self {
            Workload::Scripts => "scripts",
            Workload::Far => "far",
            Workload::Calls => "calls",
            Workload::Storms => "storms",
            Workload::Quiet => "quiet",
        }
    }

    /// The one that a word names.
    pub fn named(word: &str) -> Option<Workload> {
        match word {
            "scripts" => Some(Workload::Scripts),
            "far" => Some(Workload::Far),
            "calls" => Some(Workload::Calls),
            "storms" => Some(Workload::Storms),
            "quiet" => Some(Workload::Quiet),
            _ => None,
        }
    }
}

/// Whether a workload is run for its time, or just to see that it runs.
#[derive(Clone, Copy)]
pub enum Scale {
    Short,
    Whole,
}

impl Scale {
    /// The number for this scale.
    pub fn pick(self, short: u32, whole: u32) -> u32 {
        match self {
            Scale::Short => short,
            Scale::Whole => whole,
        }
    }
}
