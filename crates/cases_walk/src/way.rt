// The two ways round a circle, on and back: a step and a run that way, and what their lines are called.
use refusal::Refusal;

// What is different on the way on and on the way back.
pub trait Way {
    // What the name of a circle's line ends with.
    const SUFFIX: &'static str;
    // The names of the lines of a step, of the beats that it would change, and of a run.
    const STEP_LINE: &'static str;

    const CHANGED_LINE: &'static str;

    const RUN_LINE: &'static str;

    // A step, and how many beats it changes.
    fn step(&self, t: u64, s: u64, beats: &mut [u8]) -> Result<u64, Refusal>;

    // How many beats a step would change.
    fn changed(&self, t: u64, s: u64, beats: &[u8]) -> Result<u64, Refusal>;

    // A run of k steps, and how many beats they change.
    fn run(&self, t: u64, s: u64, beats: &mut [u8], k: u64) -> Result<u64, Refusal>;
}

// On, to the next form.
pub struct On;

impl Way for On {
    const SUFFIX: &'static str = "";

    const STEP_LINE: &'static str = "next";

    const CHANGED_LINE: &'static str = "changed";

    const RUN_LINE: &'static str = "run";

    fn step(&self, t: u64, s: u64, beats: &mut [u8]) -> Result<u64, Refusal> {
        circle::next(t, s, beats)
    }

    fn changed(&self, t: u64, s: u64, beats: &[u8]) -> Result<u64, Refusal> {
        circle::changed(t, s, beats)
    }

    fn run(&self, t: u64, s: u64, beats: &mut [u8], k: u64) -> Result<u64, Refusal> {
        circle::run(t, s, beats, k)
    }
}

// Back, to the form before.
pub struct Back;

impl Way for Back {
    const SUFFIX: &'static str = "_back";

    const STEP_LINE: &'static str = "previous";

    const CHANGED_LINE: &'static str = "previous_changed";

    const RUN_LINE: &'static str = "run_back";

    fn step(&self, t: u64, s: u64, beats: &mut [u8]) -> Result<u64, Refusal> {
        circle_back::previous(t, s, beats)
    }

    fn changed(&self, t: u64, s: u64, beats: &[u8]) -> Result<u64, Refusal> {
        circle_back::previous_changed(t, s, beats)
    }

    fn run(&self, t: u64, s: u64, beats: &mut [u8], k: u64) -> Result<u64, Refusal> {
        circle_back::run_back(t, s, beats, k)
    }
}
