// How cases are counted.
ghost use Rattle.std.specs.Prelude.{◌≡◌, ◌≤◌};
ghost use Rattle.replay.specs.Counts.{ends, breaks, differing};

// What a case came to; `End` is no case, and after `Broken` no more is read.
#[derive(Clone, Copy)]
pub enum Step {
    End,
    Broken,
    Same,
    Differs,
}

#[derive(Clone, Copy)]
pub struct Tally {
    pub cases: u64,
    pub differing: u64,
}

pub fn is_end(s: Step) -> bool
    ensures { result ≡ ends s }
{
    match s {
        Step::End => true,
        Step::Broken => false,
        Step::Same => false,
        Step::Differs => false,
    }
}

pub fn is_broken(s: Step) -> bool
    ensures { result ≡ breaks s }
{
    match s {
        Step::Broken => true,
        Step::End => false,
        Step::Same => false,
        Step::Differs => false,
    }
}

pub fn differing_in(s: Step) -> u64
    ensures { (result ≡ differing s) × (result ≤ 1) }
{
    match s {
        Step::Broken => 1,
        Step::Differs => 1,
        Step::End => 0,
        Step::Same => 0,
    }
}
