// The faults of a sheet, each holding the fault of the layer that turned the line down.
ghost use Rattle.std.specs.Prelude.{◌≡◌};
ghost use Rattle.sheet.specs.Faults.{read_fault_number, read_byte, cause_number, cause_byte, fault_at};
ghost use Rattle.sheet.specs.declared.faults.Cause.TheVariants.{Points as OfPoints, Read as OfRead, Sample as OfSample, Terms as OfTerms};
ghost use Rattle.sheet.specs.declared.faults.ReadFault.TheVariants.{Unfit as OfMisfit};

use curve::PointsFault;
use form::Misfit;
use rules::{SampleFault, TermsFault};
use template::LONGEST;

// Why bytes are not read as a line.
#[derive(Clone, Copy, PartialEq, Eq, Debug)]
pub enum ReadFault {
    // They are more than 200.
    TooLong,
    // They are no form.
    Unfit(Misfit),
    // They are a form, and none of the three lines.
    NotALine,
}

impl ReadFault {
    // The number by which the fault is reported. Not at the cases: one that holds a fault has that fault's number.
    pub fn number(self) -> u32
        ensures { result ≡ read_fault_number self }
    {
        match self {
            ReadFault::TooLong => 19,
            ReadFault::Unfit(misfit) => misfit.kind.number(),
            ReadFault::NotALine => 24,
        }
    }

    // The byte at which it is reported, counted from 0.
    pub fn byte(self) -> usize
        ensures { result ≡ read_byte self }
    {
        match self {
            ReadFault::TooLong => LONGEST,
            ReadFault::Unfit(misfit) => misfit.byte,
            ReadFault::NotALine => 1,
        }
    }
}

// Each `From` is written by hand: of one that the library derives no clause says which case it makes.
impl From<Misfit> for ReadFault {
    ghost from_gives = { λ misfit r. r ≡ OfMisfit misfit };

    fn from(misfit: Misfit) -> ReadFault {
        ReadFault::Unfit(misfit)
    }
}

// What turned a line down: the reader, a check of what the line says, or its place in the sheet.
#[derive(Clone, Copy, PartialEq, Eq, Debug)]
pub enum Cause {
    Read(ReadFault),
    Terms(TermsFault),
    Points(PointsFault),
    Sample(SampleFault),
    // A curve or block line after an accepted block, or a reading before one.
    OutOfPlace,
}

impl Cause {
    // The number by which the fault is reported. Not at the cases: one that holds a fault has that fault's number.
    pub fn number(self) -> u32
        ensures { result ≡ cause_number self }
    {
        match self {
            Cause::Read(fault) => fault.number(),
            Cause::Terms(fault) => fault.number(),
            Cause::Points(fault) => fault.number(),
            Cause::Sample(fault) => fault.number(),
            Cause::OutOfPlace => 25,
        }
    }

    // The byte at which it is reported: the reader's, else 0.
    pub fn byte(self) -> usize
        ensures { result ≡ cause_byte self }
    {
        match self {
            Cause::Read(fault) => fault.byte(),
            _ => 0,
        }
    }
}

impl From<ReadFault> for Cause {
    ghost from_gives = { λ fault r. r ≡ OfRead fault };

    fn from(fault: ReadFault) -> Cause {
        Cause::Read(fault)
    }
}

impl From<TermsFault> for Cause {
    ghost from_gives = { λ fault r. r ≡ OfTerms fault };

    fn from(fault: TermsFault) -> Cause {
        Cause::Terms(fault)
    }
}

impl From<PointsFault> for Cause {
    ghost from_gives = { λ fault r. r ≡ OfPoints fault };

    fn from(fault: PointsFault) -> Cause {
        Cause::Points(fault)
    }
}

impl From<SampleFault> for Cause {
    ghost from_gives = { λ fault r. r ≡ OfSample fault };

    fn from(fault: SampleFault) -> Cause {
        Cause::Sample(fault)
    }
}

// A fault of a sheet: the line, counted from 1, the byte, counted from 0, and what turned the line down.
#[derive(Clone, Copy, PartialEq, Eq, Debug)]
pub struct SheetFault {
    pub line: u64,
    pub byte: usize,
    pub cause: Cause,
}

impl SheetFault {
    pub fn new(line: u64, cause: Cause) -> SheetFault
        ensures { result ≡ fault_at line cause }
    {
        SheetFault {
            line,
            byte: cause.byte(),
            cause,
        }
    }

    // The number by which the fault is reported.
    pub fn number(self) -> u32
        ensures { result ≡ cause_number self.cause }
    {
        self.cause.number()
    }
}
