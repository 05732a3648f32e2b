// The names in rows: kinds of trials, steps, and parts of a session.

// What a row is: a trial of one of four kinds, or a base for the trials behind it.
#[derive(Clone, Copy, Debug, PartialEq, Eq)]
pub enum Kind {
    Text,
    Room,
    Session,
    Based,
    Base,
}

impl Kind {
    pub fn of(word: &[u8]) -> Option<Kind> {
        match word {
            b"text" => Some(Kind::Text),
            b"room" => Some(Kind::Room),
            b"session" => Some(Kind::Session),
            b"based" => Some(Kind::Based),
            b"base" => Some(Kind::Base),
            _ => None,
        }
    }
}

// A step of a trial on a session: a number is changed, or how many numbers the next calls are lent, or a call is made.
#[derive(Clone, Copy, Debug, PartialEq, Eq)]
pub enum Step {
    Write,
    Give,
    Short,
    Spare,
    // None where no step has the name.
    Call(Option<Call>),
}

impl Step {
    pub fn of(word: &[u8]) -> Step {
        match word {
            b"write" => Step::Write,
            b"give" => Step::Give,
            b"short" => Step::Short,
            b"spare" => Step::Spare,
            _ => Step::Call(Call::of(word)),
        }
    }
}

// The calls of a trial.
#[derive(Clone, Copy, Debug, PartialEq, Eq)]
pub enum Call {
    Begin,
    Open,
    Decide,
    Backtrack,
    Fix,
    Many,
    Replay,
    Line,
    Chapters,
    Quote,
    Read(Read),
}

impl Call {
    fn of(word: &[u8]) -> Option<Call> {
        match word {
            b"begin" => Some(Call::Begin),
            b"open" => Some(Call::Open),
            b"choose" => Some(Call::Decide),
            b"back" => Some(Call::Backtrack),
            b"fix" => Some(Call::Fix),
            b"many" => Some(Call::Many),
            b"play" => Some(Call::Replay),
            b"line" => Some(Call::Line),
            b"chapters" => Some(Call::Chapters),
            b"quote" => Some(Call::Quote),
            _ => Some(Call::Read(Read::of(word)?)),
        }
    }
}

// The calls that only read a session or a book.
#[derive(Clone, Copy, Debug, PartialEq, Eq)]
pub enum Read {
    Lookup,
    Figures,
    Fixed,
    Total,
    Required,
    Each,
    Trail,
    Form,
    Sizes,
}

impl Read {
    fn of(word: &[u8]) -> Option<Read> {
        match word {
            b"lookup" => Some(Read::Lookup),
            b"figures" => Some(Read::Figures),
            b"fixed" => Some(Read::Fixed),
            b"sum" => Some(Read::Total),
            b"need" => Some(Read::Required),
            b"each" => Some(Read::Each),
            b"trail" => Some(Read::Trail),
            b"form" => Some(Read::Form),
            b"sizes" => Some(Read::Sizes),
            _ => None,
        }
    }
}

// The parts of a session, in their order.
#[derive(Clone, Copy, Debug, PartialEq, Eq)]
pub enum Part {
    Header,
    Trail,
    Levels,
    Values,
    Watches,
    Pointers,
    Checks,
    Heads,
    Links,
}

impl Part {
    pub fn of(word: &[u8]) -> Option<Part> {
        match word {
            b"header" => Some(Part::Header),
            b"trail" => Some(Part::Trail),
            b"levels" => Some(Part::Levels),
            b"values" => Some(Part::Values),
            b"watches" => Some(Part::Watches),
            b"pointers" => Some(Part::Pointers),
            b"checks" => Some(Part::Checks),
            b"heads" => Some(Part::Heads),
            b"links" => Some(Part::Links),
            _ => None,
        }
    }
}
