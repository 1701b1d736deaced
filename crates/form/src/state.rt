// What has been read of a form so far, as far as it matters for what may follow.
ghost use Rattle.std.specs.Prelude.{◌≡◌};
ghost use Rattle.form.specs.Scanning.{closed, after_item, item_begins, step, with_room};

// `outer` counts the forms around the one that is open; `left`, how many letters or digits may still come.
#[derive(Clone, Copy)]
pub enum State {
    // Nothing.
    Start,
    // An opening bracket.
    Opened(u8),
    // A word, so far.
    Word(u8, u8),
    // The space before an item.
    Gap(u8),
    // The minus of a number.
    Minus(u8),
    // A number that does not begin with 0, so far.
    Number(u8, u8),
    // A whole item: the number 0, or a form.
    After(u8),
    // The outer form.
    Done,
}

// What a number and a form may come to.
#[derive(Clone, Copy)]
pub struct Limits {
    // Digits after the first.
    pub more_digits: u8,
    pub depth: u8,
}

impl State {
    fn closed(outer: u8) -> State
        ensures { result ≡ closed outer }
    {
        outer.checked_sub(1).map_or(State::Done, State::After)
    }

    fn after_item(outer: u8, b: u8) -> Option<State>
        ensures { result ≡ after_item outer b }
    {
        match b {
            b' ' => Some(State::Gap(outer)),
            b')' => Some(State::closed(outer)),
            _ => None,
        }
    }

    fn item_begins(limits: Limits, outer: u8, b: u8) -> Option<State>
        ensures { result ≡ item_begins limits.more_digits limits.depth outer b }
    {
        match b {
            b'0' => Some(State::After(outer)),
            b'1'..=b'9' => Some(State::Number(limits.more_digits, outer)),
            b'-' => Some(State::Minus(outer)),
            b'(' => outer
                .checked_add(1)
                .filter(|around| *around < limits.depth)
                .map(State::Opened),
            _ => None,
        }
    }

    // One byte more, unless no form has it here.
    pub fn step(self, limits: Limits, b: u8) -> Option<State>
        ensures { result ≡ step limits.more_digits limits.depth self b }
    {
        match (self, b) {
            (State::Start, b'(') => Some(State::Opened(0)),
            (State::Opened(outer), b'a'..=b'z') => Some(State::Word(7, outer)),
            // A full word or number takes no more.
            (State::Word(0, _), b'a'..=b'z') | (State::Number(0, _), b'0'..=b'9') => None,
            // Letters and digits have an arm each: one for both would have to ask again which of them it has.
            (State::Word(left, outer), b'a'..=b'z') => Some(State::Word(left - 1, outer)),
            (State::Number(left, outer), b'0'..=b'9') => Some(State::Number(left - 1, outer)),
            (State::Word(_, outer) | State::Number(_, outer) | State::After(outer), _) =>
                State::after_item(outer, b),
            (State::Gap(outer), _) => State::item_begins(limits, outer, b),
            (State::Minus(outer), b'1'..=b'9') => Some(State::Number(limits.more_digits, outer)),
            _ => None,
        }
    }

    // The same state, where a number that is full may have one digit more.
    pub fn with_room(self) -> State
        ensures { result ≡ with_room self }
    {
        match self {
            State::Number(0, outer) => State::Number(1, outer),
            _ => self,
        }
    }
}
