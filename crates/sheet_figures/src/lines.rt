// Forms that are one of the three lines, or none. Which numbers they hold does not matter.
use crate::answer::{Case, Kind, RefusedAt};

// Five numbers.
pub const READINGS: [Case; 12] = [
    Case(b"(s 0 50000 52500 0 1)", Ok(Kind::Reading)),
    Case(b"(s 0 0 0 0 0)", Ok(Kind::Reading)),
    Case(b"(s -1 -2 -3 -4 -5)", Ok(Kind::Reading)),
    Case(
        b"(s 9999999999 -9999999999 9999999999 -9999999999 9999999999)",
        Ok(Kind::Reading),
    ),
    Case(b"(s 0 50000 52500 0)", Err(RefusedAt(24, 1))),
    Case(b"(s 0 50000 52500 0 1 1)", Err(RefusedAt(24, 1))),
    Case(b"(s 0 50000 52500 0 1 (p))", Err(RefusedAt(24, 1))),
    Case(b"(s (p) 50000 52500 0 1)", Err(RefusedAt(24, 1))),
    Case(b"(s 0 50000 52500 0 (p))", Err(RefusedAt(24, 1))),
    Case(b"(t 0 50000 52500 0 1)", Err(RefusedAt(24, 1))),
    Case(b"(ss 0 50000 52500 0 1)", Err(RefusedAt(24, 1))),
    Case(b"(a (s 0 50000 52500 0 1))", Err(RefusedAt(24, 1))),
];

// Two numbers, and two in each of three forms.
pub const BLOCKS: [Case; 23] = [
    Case(
        b"(block 20 5 (band 30000 70000) (low 50 1701) (high 0 0))",
        Ok(Kind::Block),
    ),
    Case(
        b"(block 0 0 (band 0 0) (low 0 0) (high 0 0))",
        Ok(Kind::Block),
    ),
    Case(
        b"(block -1 -1 (band -1 -1) (low -1 -1) (high -1 -1))",
        Ok(Kind::Block),
    ),
    Case(
        b"(block 9999999999 -9999999999 (band 9999999999 -9999999999) (low 9999999999 -9999999999) (high 9999999999 -9999999999))",
        Ok(Kind::Block),
    ),
    Case(b"(block)", Err(RefusedAt(24, 1))),
    Case(b"(block 20 5)", Err(RefusedAt(24, 1))),
    Case(
        b"(block 20 (band 30000 70000) (low 50 1701) (high 0 0))",
        Err(RefusedAt(24, 1)),
    ),
    Case(
        b"(block 20 5 6 (band 30000 70000) (low 50 1701) (high 0 0))",
        Err(RefusedAt(24, 1)),
    ),
    Case(
        b"(block 20 5 (band 30000) (low 50 1701) (high 0 0))",
        Err(RefusedAt(24, 1)),
    ),
    Case(
        b"(block 20 5 (band 30000 70000 1) (low 50 1701) (high 0 0))",
        Err(RefusedAt(24, 1)),
    ),
    Case(
        b"(block 20 5 (band 30000 70000) (low 50 1701))",
        Err(RefusedAt(24, 1)),
    ),
    Case(
        b"(block 20 5 (band 30000 70000) (low 50 1701) (high 0 0) 1)",
        Err(RefusedAt(24, 1)),
    ),
    Case(
        b"(block 20 5 (band 30000 70000) (low 50 1701) (high 0 0) (high 0 0))",
        Err(RefusedAt(24, 1)),
    ),
    Case(
        b"(block (p) 5 (band 30000 70000) (low 50 1701) (high 0 0))",
        Err(RefusedAt(24, 1)),
    ),
    Case(
        b"(block 20 5 (band 30000 (p)) (low 50 1701) (high 0 0))",
        Err(RefusedAt(24, 1)),
    ),
    Case(
        b"(block 20 5 30000 70000 (low 50 1701) (high 0 0))",
        Err(RefusedAt(24, 1)),
    ),
    Case(
        b"(block 20 5 (band 30000 70000) (high 0 0) (low 50 1701))",
        Err(RefusedAt(24, 1)),
    ),
    Case(
        b"(block (band 30000 70000) 20 5 (low 50 1701) (high 0 0))",
        Err(RefusedAt(24, 1)),
    ),
    Case(
        b"(bloc 20 5 (band 30000 70000) (low 50 1701) (high 0 0))",
        Err(RefusedAt(24, 1)),
    ),
    Case(
        b"(blocks 20 5 (band 30000 70000) (low 50 1701) (high 0 0))",
        Err(RefusedAt(24, 1)),
    ),
    Case(
        b"(block 20 5 (bend 30000 70000) (low 50 1701) (high 0 0))",
        Err(RefusedAt(24, 1)),
    ),
    Case(
        b"(block 20 5 (band 30000 70000) (lows 50 1701) (high 0 0))",
        Err(RefusedAt(24, 1)),
    ),
    Case(b"(band 30000 70000)", Err(RefusedAt(24, 1))),
];

// Two numbers, and up to 23 points of two numbers each.
pub const CURVES: [Case; 27] = [
    Case(
        b"(curve 22200 10 (p 15 0) (p 200 11100) (p 500 222000))",
        Ok(Kind::Curve(3)),
    ),
    Case(b"(curve 5 2)", Ok(Kind::Curve(0))),
    Case(b"(curve 5 2 (p 0 0))", Ok(Kind::Curve(1))),
    Case(
        b"(curve 5 2 (p 0 0) (p 1 10) (p 2 20) (p 3 30) (p 4 40) (p 5 50) (p 6 60) (p 7 70))",
        Ok(Kind::Curve(8)),
    ),
    Case(
        b"(curve 5 2 (p 0 0) (p 1 10) (p 2 20) (p 3 30) (p 4 40) (p 5 50) (p 6 60) (p 7 70) (p 8 80))",
        Ok(Kind::Curve(9)),
    ),
    Case(b"(curve 0 0 (p 0 0) (p 0 0))", Ok(Kind::Curve(2))),
    Case(b"(curve -5 -2 (p -1 -1))", Ok(Kind::Curve(1))),
    Case(
        b"(curve 9999999999 -9999999999 (p 9999999999 -9999999999))",
        Ok(Kind::Curve(1)),
    ),
    Case(b"(curve)", Err(RefusedAt(24, 1))),
    Case(b"(curve 5)", Err(RefusedAt(24, 1))),
    Case(b"(curve 5 2 3)", Err(RefusedAt(24, 1))),
    Case(b"(curve 5 (p 0 0))", Err(RefusedAt(24, 1))),
    Case(b"(curve 5 2 3 (p 0 0))", Err(RefusedAt(24, 1))),
    Case(b"(curve 5 2 (p 0 0) 3)", Err(RefusedAt(24, 1))),
    Case(b"(curve 5 2 (p 0))", Err(RefusedAt(24, 1))),
    Case(b"(curve 5 2 (p 0 0 0))", Err(RefusedAt(24, 1))),
    Case(b"(curve 5 2 (p))", Err(RefusedAt(24, 1))),
    Case(b"(curve (p) 2 (p 0 0))", Err(RefusedAt(24, 1))),
    Case(b"(curve 5 2 (p (p 0 0) 0))", Err(RefusedAt(24, 1))),
    Case(b"(curve 5 2 (p 0 (p 0 0)))", Err(RefusedAt(24, 1))),
    Case(b"(curve 5 2 (p 0 0) (p 10))", Err(RefusedAt(24, 1))),
    Case(b"(curve (p 0 0) 5 2)", Err(RefusedAt(24, 1))),
    Case(b"(curve 5 2 (q 0 0))", Err(RefusedAt(24, 1))),
    Case(b"(curve 5 2 (p 0 0) (pp 10 1000))", Err(RefusedAt(24, 1))),
    Case(b"(curves 5 2 (p 0 0))", Err(RefusedAt(24, 1))),
    Case(b"(curv 5 2)", Err(RefusedAt(24, 1))),
    Case(b"(p 0 0)", Err(RefusedAt(24, 1))),
];
