// Why bytes are no form.
ghost use Rattle.std.specs.Prelude.{◌≡◌};
ghost use Rattle.form.specs.Misfits.{kind_number};

// What is wrong with the first byte that does not fit. Each kind stands for the number by which it is reported.
#[derive(Clone, Copy, PartialEq, Eq, Debug)]
pub enum Kind {
    // It is outside small letters, digits, brackets, space and minus.
    Alien = 20,
    // No form has it here; or the bytes end before the form does.
    Misplaced = 21,
    // It opens a form of a fifth depth.
    TooDeep = 22,
    // It is the eleventh digit of a number.
    TooManyDigits = 23,
}

// The first byte that does not fit, counted from 0.
#[derive(Clone, Copy, PartialEq, Eq, Debug)]
pub struct Misfit {
    pub byte: usize,
    pub kind: Kind,
}

impl Kind {
    // The number by which the misfit is reported. (Each type of fault has this line: a trait would ask it of each again.)
    pub fn number(self) -> u32
        ensures { result ≡ kind_number self }
    {
        self as u32
    }
}
