// Why a text is not written.
ghost use Rattle.std.specs.Prelude.{◌≡◌};
ghost use Rattle.template.specs.Templates.{write_fault_number};

// Each stands for the number by which it is reported.
#[derive(Clone, Copy, PartialEq, Eq, Debug)]
pub enum WriteFault {
    // A number has more than ten digits, or the text more than 200 bytes.
    TooLong = 27,
    // The buffer is shorter than the text.
    NoRoom = 28,
}

impl WriteFault {
    // The number by which the fault is reported. (Each type of fault has this line: a trait would ask it of each again.)
    pub fn number(self) -> u32
        ensures { result ≡ write_fault_number self }
    {
        self as u32
    }
}
