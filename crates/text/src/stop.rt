// Why a reader does not read on.
ghost use Rattle.std.specs.Prelude.{◌≡◌};
ghost use Rattle.text.specs.Refusals.{cause_number, refused_with};
ghost use Rattle.text.specs.steps.Told.{required};

#[derive(Clone, Copy, Debug, PartialEq, Eq)]
pub enum Stop {
    // The text is something else: the next choice is tried.
    Miss,
    // A refusal, with its place.
    Hard(Cause, usize),
}

// The refusals that are met while an entry is read.
#[derive(Clone, Copy, Debug, PartialEq, Eq)]
pub enum Cause {
    // A group opens inside 32 open ones.
    TooDeep,
    // A required part is missing, and it is neither of the next two.
    Missing,
    // The gap after a date, a directive's keyword or `include` is missing.
    MissingGap,
    // An account has no second part.
    MissingPart,
}

// Its number in document 01.
impl From<Cause> for usize {
    ghost from_gives = { λ cause n. n ≡ cause_number cause };

    fn from(cause: Cause) -> usize {
        match cause {
            Cause::TooDeep => 3,
            Cause::Missing => 4,
            Cause::MissingGap => 4,
            Cause::MissingPart => 4,
        }
    }
}

// What a reader answers: where it ends, with what was read.
pub type Reading<T> = Result<(usize, T), Stop>;

// A required reader: its miss is a refusal at a place.
pub fn required<T>(r: Result<T, Stop>, at: usize) -> Result<T, Stop>
    ensures { result ≡ required at r }
{
    match r {
        Ok(x) => Ok(x),
        Err(Stop::Miss) => Err(Stop::Hard(Cause::Missing, at)),
        Err(Stop::Hard(cause, p)) => Err(Stop::Hard(cause, p)),
    }
}

// The numbers of documents 01 and 02 with which a call itself refuses, as C gets them.
pub const TOO_LONG: usize = 1;

pub const BAD_BYTE: usize = 2;

pub const NO_ENTRY: usize = 5;

pub const TOO_SHORT: usize = 9;

pub const NOT_VALID: usize = 10;

pub const NO_EXPRESSION: usize = 11;

pub const NO_MONTH: usize = 15;

pub const LOST_LINE: usize = 16;

pub const OTHER_FLAG: usize = 17;

pub const TEXT_TOO_LARGE: usize = 18;

pub const CUT_SHORT: usize = 19;

pub const WRONG_FIELD: usize = 20;

// A call's refusal: its number in document 01, its place, and a count, as of the rows or bytes that are needed.
#[derive(Clone, Copy, Debug, PartialEq, Eq)]
pub struct Refused {
    pub number: usize,
    pub place: usize,
    pub count: usize,
}

// With a place, and nothing to count.
pub fn refused_at(number: usize, place: usize) -> Refused
    ensures { result ≡ refused_with number place 0 }
{
    Refused {
        number,
        place,
        count: 0,
    }
}
