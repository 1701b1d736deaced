// Curve lines, with # where a number stands.
ghost use Rattle.std.specs.Prelude.{◌≡◌, ◌+◌, ◌*◌, ◌≤◌, take};
ghost use Rattle.sheet.specs.Lines.{curve_template};

// A curve line of 23 points.
const CURVE: [u8; 195] =
    *b"(curve # # (p # #) (p # #) (p # #) (p # #) (p # #) (p # #) (p # #) (p # #) (p # #) (p # #) (p # #) (p # #) (p # #) (p # #) (p # #) (p # #) (p # #) (p # #) (p # #) (p # #) (p # #) (p # #) (p # #))";

// How many bytes the template of a curve line with so many points has.
pub fn curve_length(points: usize) -> usize
    requires { points ≤ 23 }
    ensures { result ≡ 8 * points + 11 }
{
    8 * points + 11
}

// The template of a curve line with so many points, at the front of the array. (No `Few`: its bytes would be moved once more, which
// shows where a short line is read.)
pub fn curve_template(points: usize) -> [u8; 195]
    requires { points ≤ 23 }
    ensures { take (8 * points + 11) result ≡ curve_template points }
{
    let mut template = CURVE;
    template[8 * points + 10] = b')';
    template
}
