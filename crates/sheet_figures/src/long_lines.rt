// Lines of 200 bytes, and longer ones, which are refused before all else.
use crate::answer::{Case, Kind, RefusedAt};

// 23 points, the most that fit.
pub const POINTS_23: [u8; 200] =
    *b"(curve 1000 100 (p 1 1) (p 1 1) (p 1 1) (p 1 1) (p 1 1) (p 1 1) (p 1 1) (p 1 1) (p 1 1) (p 1 1) (p 1 1) (p 1 1) (p 1 1) (p 1 1) (p 1 1) (p 1 1) (p 1 1) (p 1 1) (p 1 1) (p 1 1) (p 1 1) (p 1 1) (p 1 1))";

// The same with a digit more.
pub const POINTS_23_OVER: [u8; 201] =
    *b"(curve 10000 100 (p 1 1) (p 1 1) (p 1 1) (p 1 1) (p 1 1) (p 1 1) (p 1 1) (p 1 1) (p 1 1) (p 1 1) (p 1 1) (p 1 1) (p 1 1) (p 1 1) (p 1 1) (p 1 1) (p 1 1) (p 1 1) (p 1 1) (p 1 1) (p 1 1) (p 1 1) (p 1 1))";

// 24 points, as short as can be.
pub const POINTS_24: [u8; 203] =
    *b"(curve 1 1 (p 1 1) (p 1 1) (p 1 1) (p 1 1) (p 1 1) (p 1 1) (p 1 1) (p 1 1) (p 1 1) (p 1 1) (p 1 1) (p 1 1) (p 1 1) (p 1 1) (p 1 1) (p 1 1) (p 1 1) (p 1 1) (p 1 1) (p 1 1) (p 1 1) (p 1 1) (p 1 1) (p 1 1))";

// A form that is no line.
const FORM: [u8; 200] =
    *b"(form 1 1 1 1 1 1 1 1 1 1 1 1 1 1 1 1 1 1 1 1 1 1 1 1 1 1 1 1 1 1 1 1 1 1 1 1 1 1 1 1 1 1 1 1 1 1 1 1 1 1 1 1 1 1 1 1 1 1 1 1 1 1 1 1 1 1 1 1 1 1 1 1 1 1 1 1 1 1 1 1 1 1 1 1 1 1 1 1 1 1 1 1 1 1 1 1 1)";

const FORM_OVER: [u8; 201] =
    *b"(form 1 1 1 1 1 1 1 1 1 1 1 1 1 1 1 1 1 1 1 1 1 1 1 1 1 1 1 1 1 1 1 1 1 1 1 1 1 1 1 1 1 1 1 1 1 1 1 1 1 1 1 1 1 1 1 1 1 1 1 1 1 1 1 1 1 1 1 1 1 1 1 1 1 1 1 1 1 1 1 1 1 1 1 1 1 1 1 1 1 1 1 1 1 1 1 1 10)";

// A form that is not closed.
const OPEN: [u8; 200] =
    *b"(form 1 1 1 1 1 1 1 1 1 1 1 1 1 1 1 1 1 1 1 1 1 1 1 1 1 1 1 1 1 1 1 1 1 1 1 1 1 1 1 1 1 1 1 1 1 1 1 1 1 1 1 1 1 1 1 1 1 1 1 1 1 1 1 1 1 1 1 1 1 1 1 1 1 1 1 1 1 1 1 1 1 1 1 1 1 1 1 1 1 1 1 1 1 1 1 1 10";

// The same, closed.
const OPEN_OVER: [u8; 201] =
    *b"(form 1 1 1 1 1 1 1 1 1 1 1 1 1 1 1 1 1 1 1 1 1 1 1 1 1 1 1 1 1 1 1 1 1 1 1 1 1 1 1 1 1 1 1 1 1 1 1 1 1 1 1 1 1 1 1 1 1 1 1 1 1 1 1 1 1 1 1 1 1 1 1 1 1 1 1 1 1 1 1 1 1 1 1 1 1 1 1 1 1 1 1 1 1 1 1 1 10)";

// The first byte does not fit.
const ALIEN: [u8; 200] =
    *b"Aform 1 1 1 1 1 1 1 1 1 1 1 1 1 1 1 1 1 1 1 1 1 1 1 1 1 1 1 1 1 1 1 1 1 1 1 1 1 1 1 1 1 1 1 1 1 1 1 1 1 1 1 1 1 1 1 1 1 1 1 1 1 1 1 1 1 1 1 1 1 1 1 1 1 1 1 1 1 1 1 1 1 1 1 1 1 1 1 1 1 1 1 1 1 1 1 1 1)";

const ALIEN_OVER: [u8; 201] =
    *b"Aform 1 1 1 1 1 1 1 1 1 1 1 1 1 1 1 1 1 1 1 1 1 1 1 1 1 1 1 1 1 1 1 1 1 1 1 1 1 1 1 1 1 1 1 1 1 1 1 1 1 1 1 1 1 1 1 1 1 1 1 1 1 1 1 1 1 1 1 1 1 1 1 1 1 1 1 1 1 1 1 1 1 1 1 1 1 1 1 1 1 1 1 1 1 1 1 1 10)";

// The last byte does not fit.
const ALIEN_LAST: [u8; 200] =
    *b"(form 1 1 1 1 1 1 1 1 1 1 1 1 1 1 1 1 1 1 1 1 1 1 1 1 1 1 1 1 1 1 1 1 1 1 1 1 1 1 1 1 1 1 1 1 1 1 1 1 1 1 1 1 1 1 1 1 1 1 1 1 1 1 1 1 1 1 1 1 1 1 1 1 1 1 1 1 1 1 1 1 1 1 1 1 1 1 1 1 1 1 1 1 1 1 1 1 1A";

// A space after 200 bytes.
const SPACE_AFTER: [u8; 201] =
    *b"(form 1 1 1 1 1 1 1 1 1 1 1 1 1 1 1 1 1 1 1 1 1 1 1 1 1 1 1 1 1 1 1 1 1 1 1 1 1 1 1 1 1 1 1 1 1 1 1 1 1 1 1 1 1 1 1 1 1 1 1 1 1 1 1 1 1 1 1 1 1 1 1 1 1 1 1 1 1 1 1 1 1 1 1 1 1 1 1 1 1 1 1 1 1 1 1 1 1) ";

pub const CASES: [Case; 11] = [
    Case(&POINTS_23, Ok(Kind::Curve(23))),
    Case(&POINTS_23_OVER, Err(RefusedAt(19, 200))),
    Case(&POINTS_24, Err(RefusedAt(19, 200))),
    Case(&FORM, Err(RefusedAt(24, 1))),
    Case(&FORM_OVER, Err(RefusedAt(19, 200))),
    Case(&OPEN, Err(RefusedAt(21, 200))),
    Case(&OPEN_OVER, Err(RefusedAt(19, 200))),
    Case(&ALIEN, Err(RefusedAt(20, 0))),
    Case(&ALIEN_OVER, Err(RefusedAt(19, 200))),
    Case(&ALIEN_LAST, Err(RefusedAt(20, 199))),
    Case(&SPACE_AFTER, Err(RefusedAt(19, 200))),
];
